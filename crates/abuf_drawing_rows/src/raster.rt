// Worked rows of coverage, patterns and packing.
use abuf_raster::{Fragment, Pattern, ScreenTri, mask_at, pack, unpack};
use std::test::Fail;

/// The centres of the pixels with i + j = 3 lie on the diagonal, which is a right edge of the upper triangle, and a left
/// edge of the lower one.
#[test]
fn a_shared_edge_is_drawn_once(rt: HostRuntime) -> Result<(), Fail> {
    let upper = ScreenTri::new([0, 1024, 0], [0, 0, 1024], [0, 0, 0]).ok_or("upper")?;
    let lower = ScreenTri::new([1024, 1024, 0], [0, 1024, 1024], [0, 0, 0]).ok_or("lower")?;
    for i in 0..4 {
        for j in 0..4 {
            let above = mask_at(&upper, i, j, Pattern::One);
            let below = mask_at(&lower, i, j, Pattern::One);
            let inside = i + j < 3;
            assert_eq!(rt; above == 1, inside, "upper at {i}, {j}");
            assert_eq!(rt; below == 1, !inside, "lower at {i}, {j}");
        }
    }
    Ok(())
}

/// The square from (128, 128) to (384, 384) in two triangles: its top and left edges run through centres of pixel 0, its
/// bottom and right ones through centres of pixel 1.
#[test]
fn top_and_left_edges_are_inside(rt: HostRuntime) -> Result<(), Fail> {
    let t = ScreenTri::new([128, 384, 128], [128, 128, 384], [0, 0, 0]).ok_or("t")?;
    let u = ScreenTri::new([384, 384, 128], [128, 384, 384], [0, 0, 0]).ok_or("u")?;
    for (x, y, want) in [(0, 0, 1), (1, 0, 0), (0, 1, 0), (1, 1, 0)] {
        let mask = mask_at(&t, x, y, Pattern::One) | mask_at(&u, x, y, Pattern::One);
        assert_eq!(rt; mask, want, "at {x}, {y}");
    }
    Ok(())
}

/// The triangle (0, 0), (120, 0), (0, 200) covers only sample 0 of the four, at (96, 32), whichever way it runs.
#[test]
fn one_of_four_samples(rt: HostRuntime) -> Result<(), Fail> {
    let t = ScreenTri::new([0, 120, 0], [0, 0, 200], [0, 16777215, 0]).ok_or("t")?;
    assert_eq!(rt; mask_at(&t, 0, 0, Pattern::Four), 1);
    let turned = ScreenTri::new([0, 0, 120], [0, 200, 0], [0, 0, 16777215]).ok_or("turned")?;
    assert_eq!(rt; mask_at(&turned, 0, 0, Pattern::Four), 1);
    Ok(())
}

/// A rectangle whose left half covers the pixel up to its middle, as a fan of two triangles: the first has what lies to the
/// right of the fan's inner edge and on it. The right edge runs through the centre, which is not inside.
#[test]
fn half_a_pixel_in_every_pattern(rt: HostRuntime) -> Result<(), Fail> {
    let first = ScreenTri::new([-128, 128, 128], [-128, -128, 384], [0; 3]).ok_or("first")?;
    let second = ScreenTri::new([-128, 128, -128], [-128, 384, 384], [0; 3]).ok_or("second")?;
    let rows = [
        (Pattern::One, 0),
        (Pattern::Two, 2),
        (Pattern::Four, 5),
        (Pattern::Eight, 58),
        (Pattern::Sixteen, 40214),
    ];
    for (pattern, want) in rows {
        assert_eq!(rt; mask_at(&first, 0, 0, pattern), want);
        assert_eq!(rt; mask_at(&second, 0, 0, pattern), 0);
    }
    Ok(())
}

#[test]
fn all_samples_of_a_covered_pixel(rt: HostRuntime) -> Result<(), Fail> {
    let t = ScreenTri::new([-1000, 1000, -1000], [-1000, -1000, 1000], [0; 3]).ok_or("t")?;
    let wide = ScreenTri::new(
        [-(1 << 40), 1 << 40, 0],
        [-(1 << 40), -(1 << 40), 1 << 41],
        [0; 3],
    );
    let wide = wide.ok_or("wide")?;
    let rows = [
        (Pattern::One, 1),
        (Pattern::Two, 3),
        (Pattern::Four, 15),
        (Pattern::Eight, 255),
        (Pattern::Sixteen, 65535),
    ];
    for (pattern, want) in rows {
        assert_eq!(rt; mask_at(&wide, 4095, 4095, pattern), want);
        assert_eq!(rt; mask_at(&t, 4, 0, pattern), 0);
    }
    Ok(())
}

#[test]
fn what_is_off_the_screen_is_none(rt: HostRuntime) {
    let edge = 1 << 45;
    for (x, y, q, made) in [
        ([edge, 0, 0], [0; 3], [0; 3], false),
        ([0; 3], [0, 0, -edge], [0; 3], false),
        ([0; 3], [0; 3], [0, 16777216, 0], false),
        ([edge - 1; 3], [1 - edge; 3], [16777215; 3], true),
    ] {
        assert!(rt; ScreenTri::new(x, y, q).is_some() == made);
    }
}

#[test]
fn offsets_are_those_of_direct3d(rt: HostRuntime) {
    let four = [(-2, -6), (6, -2), (-6, 2), (2, 6)];
    let eight = [
        (1, -3),
        (-1, 3),
        (5, 1),
        (-3, -5),
        (-5, 5),
        (-7, -1),
        (3, 7),
        (7, -7),
    ];
    assert_eq!(rt; Pattern::One.offset(0), (0, 0));
    for k in 0..4 {
        assert_eq!(rt; Pattern::Four.offset(k), four[k as usize]);
    }
    for k in 0..8 {
        assert_eq!(rt; Pattern::Eight.offset(k), eight[k as usize]);
    }
}

#[test]
fn offsets_of_the_project_s_own_patterns(rt: HostRuntime) {
    let two = [(4, 4), (-4, -4)];
    let sixteen = [
        (1, 1),
        (-1, -3),
        (-3, 2),
        (4, -1),
        (-5, -2),
        (2, 5),
        (5, 3),
        (3, -5),
        (-2, 6),
        (0, -7),
        (-4, -6),
        (-6, 4),
        (-8, 0),
        (7, -4),
        (6, 7),
        (-7, -8),
    ];
    for k in 0..2 {
        assert_eq!(rt; Pattern::Two.offset(k), two[k as usize]);
    }
    for k in 0..16 {
        assert_eq!(rt; Pattern::Sixteen.offset(k), sixteen[k as usize]);
    }
}

#[test]
fn words_ascend_with_the_primitive(rt: HostRuntime) {
    let first = Fragment {
        prim: 1,
        mask: 65535,
    };
    let second = Fragment { prim: 2, mask: 1 };
    assert_eq!(rt; pack(first), 0x1_ffff);
    assert!(rt; pack(first) < pack(second));
    assert_eq!(rt; unpack(pack(second)), second);
}
