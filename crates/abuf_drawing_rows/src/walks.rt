// Walks against the masks of each pixel by itself.
ghost use Rattle.std.specs.Prelude.{◌<◌};

use abuf_raster::{
    Fragment, Hit, Pattern, Region, ScreenTri, TileHits, TileWalk, count_hits, mask_at, max_hits,
    upper_left,
};
use std::test::Fail;

fn four_by_four() -> Region {
    Region::whole_image(4, 4)
}

/// A region whose last tiles are 5 pixels wide and 3 high.
fn odd() -> Region {
    Region::new(3, 2, 37, 27)
}

const PATTERNS: [Pattern; 5] = [
    Pattern::One,
    Pattern::Two,
    Pattern::Four,
    Pattern::Eight,
    Pattern::Sixteen,
];

/// The number of pixels that a walk gives.
fn length_of(walk: TileWalk) -> u32 {
    let mut found: u32 = 0;
    for _hit in walk {
        found = found.saturating_add(1);
    }
    found
}

/// The number of pixels that the tiles have.
fn length_by_tiles(tiles: TileHits) -> u32 {
    let mut tiles = tiles;
    let mut hits = [Hit {
        x: 0,
        y: 0,
        fragment: Fragment { prim: 0, mask: 0 },
    }; 64];
    let mut found: u32 = 0;
    while let Some(count) = tiles.next_tile(&mut hits) {
        found = found.saturating_add(count as u32);
    }
    found
}

/// The walk gives each pixel of the region that has a mask, once and with this mask, and no other. As many are counted.
fn gives_the_masks(t: &ScreenTri, region: Region, pattern: Pattern) -> bool {
    let mut masks = [0; 1024];
    let mut found: u32 = 0;
    for hit in TileWalk::new(t, 7, region, pattern) {
        let row = hit.y.wrapping_sub(region.y0());
        let column = hit.x.wrapping_sub(region.x0());
        let place = row.wrapping_mul(region.w()).wrapping_add(column);
        let is_inside = row < region.h() && column < region.w();
        match masks.get_mut(place as usize) {
            Some(mask) if *mask == 0 && is_inside && hit.fragment.prim == 7 => {
                *mask = hit.fragment.mask;
                found = found.saturating_add(1);
            }
            _ => return false,
        }
    }
    for row in 0..region.h() {
        for column in 0..region.w() {
            let place = row.wrapping_mul(region.w()).wrapping_add(column);
            let want = mask_at(t, region.x0() + column, region.y0() + row, pattern);
            if masks.get(place as usize) != Some(&want) {
                return false;
            }
        }
    }
    count_hits(t, region, pattern) == found
}

#[test]
fn a_shared_edge_is_walked_once(rt: HostRuntime) -> Result<(), Fail> {
    let upper = ScreenTri::new([0, 1024, 0], [0, 0, 1024], [0, 0, 0]).ok_or("upper")?;
    let lower = ScreenTri::new([1024, 1024, 0], [0, 1024, 1024], [0, 0, 0]).ok_or("lower")?;
    let upper = TileWalk::new(&upper, 0, four_by_four(), Pattern::One);
    let lower = TileWalk::new(&lower, 1, four_by_four(), Pattern::One);
    assert_eq!(rt; length_of(upper), 6);
    assert_eq!(rt; length_of(lower), 10);
    Ok(())
}

#[test]
fn both_windings_are_drawn(rt: HostRuntime) -> Result<(), Fail> {
    let t = ScreenTri::new([0, 0, 1024], [0, 1024, 0], [0, 0, 0]).ok_or("t")?;
    let walk = TileWalk::new(&t, 0, four_by_four(), Pattern::One);
    assert_eq!(rt; length_of(walk), 6);
    Ok(())
}

/// Corners on tiles' corners, a sliver, a triangle that holds the whole region, and one of no area.
#[test]
fn walks_over_several_tiles(rt: HostRuntime) -> Result<(), Fail> {
    let across = ScreenTri::new([900, 9700, 4100], [700, 3000, 7300], [0; 3]).ok_or("across")?;
    let corners = ScreenTri::new([768, 4864, 768], [512, 512, 4608], [0; 3]).ok_or("corners")?;
    let sliver = ScreenTri::new([0, 10000, 10000], [0, 7000, 7100], [0; 3]).ok_or("sliver")?;
    let around = ScreenTri::new([-90000, 90000, 0], [-50000, -50000, 90000], [0; 3]);
    let around = around.ok_or("around")?;
    let line = ScreenTri::new([0, 5000, 10000], [0, 2500, 5000], [0; 3]).ok_or("line")?;
    for pattern in PATTERNS {
        assert!(rt; gives_the_masks(&across, odd(), pattern), "across");
        assert!(rt; gives_the_masks(&corners, odd(), pattern), "corners");
        assert!(rt; gives_the_masks(&sliver, odd(), pattern), "sliver");
        assert!(rt; gives_the_masks(&around, odd(), pattern), "around");
        assert!(rt; gives_the_masks(&line, odd(), pattern), "line");
    }
    assert_eq!(rt;
        length_of(TileWalk::new(&around, 0, odd(), Pattern::One)),
        999
    );
    assert_eq!(rt; length_of(TileWalk::new(&line, 0, odd(), Pattern::One)), 0);
    Ok(())
}

/// Coordinates past 2^29, so that edge functions need more than 64 bits.
#[test]
fn a_walk_over_a_part_of_a_vast_triangle(rt: HostRuntime) -> Result<(), Fail> {
    let far = 1 << 44;
    let vast = ScreenTri::new([-far, far, 5000], [-far, -far, 6000], [0; 3]).ok_or("vast")?;
    for pattern in PATTERNS {
        assert!(rt; gives_the_masks(&vast, odd(), pattern));
    }
    Ok(())
}

/// A triangle of 6 pixels in a box of 16, the region that a larger one holds, and one of no area.
#[test]
fn no_fewer_than_the_hits(rt: HostRuntime) -> Result<(), Fail> {
    let t = ScreenTri::new([0, 1024, 0], [0, 0, 1024], [0; 3]).ok_or("t")?;
    let most = max_hits(&t, odd(), Pattern::One);
    assert!(rt; most <= 2, "of the 16 pixels 2 are in the region");
    let most = max_hits(&t, four_by_four(), Pattern::Eight);
    assert!(rt; 10 <= most && most <= 16);
    let around = ScreenTri::new([-90000, 90000, 0], [-50000, -50000, 90000], [0; 3]);
    let around = around.ok_or("around")?;
    assert_eq!(rt; max_hits(&around, odd(), Pattern::One), 999);
    let line = ScreenTri::new([0, 5000, 10000], [0, 2500, 5000], [0; 3]).ok_or("line")?;
    assert_eq!(rt; max_hits(&line, odd(), Pattern::Sixteen), 0);
    Ok(())
}

/// The box begins within the region, to the left of it and above, and behind it.
#[test]
fn the_first_pixel_of_the_box(rt: HostRuntime) -> Result<(), Fail> {
    let within = ScreenTri::new([2560, 5120, 2560], [2048, 2048, 4096], [0; 3]).ok_or("within")?;
    assert_eq!(rt; upper_left(&within, odd(), Pattern::One), (10, 8));
    assert_eq!(rt; upper_left(&within, four_by_four(), Pattern::One), (4, 4));
    let before = ScreenTri::new([0, 5120, 0], [0, 0, 4096], [0; 3]).ok_or("before")?;
    assert_eq!(rt; upper_left(&before, odd(), Pattern::Eight), (3, 2));
    Ok(())
}

#[test]
fn a_triangle_outside_has_no_hits(rt: HostRuntime) -> Result<(), Fail> {
    let left = ScreenTri::new([-9000, -2000, -5000], [0, 900, 5000], [0; 3]).ok_or("left")?;
    let far = 1 << 44;
    let below = ScreenTri::new([0, 9000, 4000], [far, far, far + 9000], [0; 3]).ok_or("below")?;
    for pattern in PATTERNS {
        assert_eq!(rt; length_of(TileWalk::new(&left, 0, odd(), pattern)), 0);
        assert_eq!(rt; length_of(TileWalk::new(&below, 0, odd(), pattern)), 0);
    }
    Ok(())
}
