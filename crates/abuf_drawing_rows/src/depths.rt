// Depth keys: worked rows, and planes against the definition.
ghost use Rattle.std.specs.Prelude.{◌≡◌, ◌<◌, length};
ghost use Rattle.abuf_num.specs.declared.limits.TheConstants.{MAX_SIDE};
ghost use Rattle.abuf_raster.specs.Samples.{offsets_of};
ghost use Rattle.abuf_raster.specs.Coverage.{covers};

use abuf_raster::{DepthPlane, Pattern, ScreenTri, depth_at, mask_at};
use std::test::Fail;

const PATTERNS: [Pattern; 5] = [
    Pattern::One,
    Pattern::Two,
    Pattern::Four,
    Pattern::Eight,
    Pattern::Sixteen,
];

/// The triangle covers the sample.
fn covers(t: &ScreenTri, x: u32, y: u32, pattern: Pattern, k: u32) -> bool
    requires x { x < MAX_SIDE }
    requires y { y < MAX_SIDE }
    requires k { k < length (offsets_of pattern) }
    ensures { result ≡ covers t.now (offsets_of pattern) x y k }
{
    mask_at(t, x, y, pattern) >> k & 1 == 1
}

/// The key at the sample, or none where the triangle doesn't cover it.
fn key(t: &ScreenTri, x: u32, y: u32, pattern: Pattern, k: u32) -> Option<u32>
    requires x { x < MAX_SIDE }
    requires y { y < MAX_SIDE }
    requires k { k < length (offsets_of pattern) }
{
    if covers(t, x, y, pattern, k) {
        Some(depth_at(t, x, y, pattern, k))
    } else {
        None
    }
}

/// The key at the sample by a `DepthPlane`, or none where the triangle doesn't cover it.
fn key_of_plane(t: &ScreenTri, x: u32, y: u32, pattern: Pattern, k: u32) -> Option<u32>
    requires x { x < MAX_SIDE }
    requires y { y < MAX_SIDE }
    requires k { k < length (offsets_of pattern) }
{
    if covers(t, x, y, pattern, k) {
        Some(DepthPlane::new(t).key(t, x, y, pattern, k))
    } else {
        None
    }
}

/// The number of samples of 40 by 40 pixels that the triangle covers, where its plane's keys are those of `depth_at`, and lie
/// within the plane's bounds; else none.
fn plane_agrees(t: &ScreenTri, pattern: Pattern) -> Option<u32> {
    let mut count: u32 = 0;
    for y in 0..40 {
        for x in 0..40 {
            let bounds = DepthPlane::new(t).bounds(t, x, y, pattern);
            for k in 0..pattern.size() {
                let want = key(t, x, y, pattern, k);
                if key_of_plane(t, x, y, pattern, k) != want {
                    return None;
                }
                if let Some(key) = want {
                    count = count.wrapping_add(1);
                    if key < bounds.0 || bounds.1 < key {
                        return None;
                    }
                }
            }
        }
    }
    Some(count)
}

/// Two triangles that cross inside of a pixel: the one with a slope is the nearer at sample 0, and the farther at sample 1.
#[test]
fn crossing_triangles_are_ordered_in_each_sample(rt: HostRuntime) -> Result<(), Fail> {
    let level = ScreenTri::new([-128, 896, -128], [-128, -128, 896], [466033; 3]).ok_or("level")?;
    let q = [262143, 1048575, 262143];
    let slope = ScreenTri::new([-128, 896, -128], [-128, -128, 896], q).ok_or("slope")?;
    for (k, want) in [(0, 507903), (1, 409599)] {
        assert_eq!(rt; key(&level, 0, 0, Pattern::Two, k), Some(466033));
        assert_eq!(rt; key_of_plane(&level, 0, 0, Pattern::Two, k), Some(466033));
        assert_eq!(rt; key(&slope, 0, 0, Pattern::Two, k), Some(want));
        assert_eq!(rt; key_of_plane(&slope, 0, 0, Pattern::Two, k), Some(want));
    }
    Ok(())
}

#[test]
fn keys_of_a_steep_triangle(rt: HostRuntime) -> Result<(), Fail> {
    let q = [0, 16777215, 1000000];
    let t = ScreenTri::new([-100, 1500, 300], [-50, 200, 1700], q).ok_or("t")?;
    let turned = ScreenTri::new([-100, 300, 1500], [-50, 1700, 200], [0, 1000000, 16777215]);
    let turned = turned.ok_or("turned")?;
    let rows = [
        (0, 0, Pattern::Two, 0, 2690119),
        (2, 2, Pattern::Eight, 7, 8091753),
        (2, 1, Pattern::Sixteen, 12, 5776767),
    ];
    for (x, y, pattern, k, want) in rows {
        assert_eq!(rt; key(&t, x, y, pattern, k), Some(want));
        assert_eq!(rt; key_of_plane(&t, x, y, pattern, k), Some(want));
        assert_eq!(rt; key(&turned, x, y, pattern, k), Some(want));
    }
    Ok(())
}

#[test]
fn planes_give_the_keys(rt: HostRuntime) -> Result<(), Fail> {
    let q = [0, 16777215, 1000000];
    let steep = ScreenTri::new([-100, 9500, 300], [-50, 200, 9700], q).ok_or("steep")?;
    let q = [1, 2, 16777215];
    let sliver = ScreenTri::new([0, 10000, 10000], [0, 7000, 7001], q).ok_or("sliver")?;
    for pattern in PATTERNS {
        assert!(rt; plane_agrees(&steep, pattern).is_some(), "steep");
        assert!(rt; plane_agrees(&sliver, pattern).is_some(), "sliver");
    }
    assert_eq!(rt; plane_agrees(&steep, Pattern::One), Some(712));
    Ok(())
}

/// Coordinates past 2^29, and an area past 2^39.
#[test]
fn planes_give_the_keys_of_vast_triangles(rt: HostRuntime) -> Result<(), Fail> {
    let far = 1 << 40;
    let q = [5, 16777215, 123456];
    let vast = ScreenTri::new([-far, far, 0], [-far, -far, far + far], q).ok_or("vast")?;
    let far = 1 << 28;
    let large = ScreenTri::new([-far, far, 0], [-far, -far, far + far], q).ok_or("large")?;
    for pattern in PATTERNS {
        assert!(rt; plane_agrees(&large, pattern).is_some(), "large");
        assert!(rt; plane_agrees(&vast, pattern).is_some(), "vast");
    }
    assert_eq!(rt; key_of_plane(&vast, 0, 0, Pattern::One, 0), Some(5633558));
    assert_eq!(rt;
        key_of_plane(&vast, 3, 5, Pattern::Sixteen, 15),
        Some(5633558)
    );
    assert_eq!(rt; plane_agrees(&vast, Pattern::One), Some(1600));
    Ok(())
}
