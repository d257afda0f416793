// Calls for users of the crate, which the program doesn't use.
ghost use Rattle.std.specs.Prelude.{◌≡◌, ◌*◌, ◌^◌, ◌<◌, ◌≤◌, length, All, IsPermutation};
ghost use Rattle.std.specs.Iterator.{YieldsFirst, item_count};
ghost use Rattle.abuf_num.specs.declared.limits.TheConstants.{MAX_SIDE};
ghost use Rattle.abuf_raster.specs.Triangle.{IsWithin, AreWithin};
ghost use Rattle.abuf_raster.specs.Samples.{offsets_of};
ghost use Rattle.abuf_raster.specs.Coverage.{mask, covers_sample};
ghost use Rattle.abuf_raster.specs.Hits.{IsHitIn, hits};

use crate::pattern::{Pattern, sample_position};
use crate::point::Point;
use crate::region::{Hit, NO_HIT, Region};
use crate::stepping::values_at;
use crate::tile_hits::TileHits;
use crate::tiles::Tiles;
use crate::triangle::ScreenTri;
use crate::width::Width;
use std::marker::Model;

impl ScreenTri {
    /// The triangle covers the sample at this position.
    fn covers_sample<V: Width>(&self, s: Point) -> bool
        requires wide { 2 ^ 22 ≤ V.reach }
        requires near { AreWithin V.reach self.now }
        requires s_near { IsWithin V.reach s }
        ensures { result ≡ covers_sample self.now s }
    {
        if !self.has_area() {
            return false;
        }
        values_at::<V>(&self.positive_order(), s).none_below()
    }
}

/// The coverage mask, by edge functions of this width.
fn mask_by<V: Width>(t: &ScreenTri, x: u32, y: u32, pattern: Pattern) -> u16
    requires wide { 2 ^ 22 ≤ V.reach }
    requires near { AreWithin V.reach t.now }
    requires x_small { x < MAX_SIDE }
    requires y_small { y < MAX_SIDE }
    ensures { result ≡ mask t.now (offsets_of pattern) x y }
{
    let mut mask = 0;
    for k in 0..pattern.size() {
        if t.covers_sample::<V>(sample_position(pattern.offset(k), x, y)) {
            mask += 1 << k;
        }
    }
    mask
}

/// The coverage mask of pixel (x, y): bit k is set exactly where the triangle covers sample k of the pattern, by the
/// top-left rule of Direct3D 11.
pub fn mask_at(t: &ScreenTri, x: u32, y: u32, pattern: Pattern) -> u16
    requires x_small { x < MAX_SIDE }
    requires y_small { y < MAX_SIDE }
    ensures { result ≡ mask t.now (offsets_of pattern) x y }
{
    if t.is_small() {
        mask_by::<i64>(t, x, y, pattern)
    } else {
        mask_by::<i128>(t, x, y, pattern)
    }
}

/// The fragments of one triangle in a region that are still to come, each pixel once. The order is not promised.
#[derive(Drop)]
pub struct TileWalk {
    tiles: Tiles,
    hits: [Hit; 64],
    at: usize,
    count: usize,
}

impl Model for TileWalk {
    ghost use Rattle.std.specs.Prelude.{◌≡◌, ◌≤◌, List, length, take, drop, ◌++◌};
    ghost use Rattle.abuf_raster.specs.declared.region.Hit.{Hit};
    ghost use Rattle.abuf_raster.specs.TilesLeft.{hits_left, IsTiles};

    ghost Value = { List Hit };

    ghost view = { λ w. drop w.at (take w.count w.hits) ++ hits_left w.tiles };

    ghost invariant = { λ w. IsTiles w.tiles × (w.at ≤ w.count) × (w.count ≤ 64) × (length w.hits ≡ 64) };
}

impl TileWalk {
    /// The walk over the pixels of the region in which the triangle covers a sample, with the primitive number `prim`.
    #[inline(always)]
    pub fn new(t: &ScreenTri, prim: u32, region: Region, pattern: Pattern) -> TileWalk
        requires prim { prim < 2097152 }
        ensures hits { IsPermutation result (hits t.now prim (offsets_of pattern) region) }
        ensures within { All (IsHitIn region) result }
        ensures few { length result ≤ region.w * region.h }
    {
        TileWalk {
            tiles: TileHits::new(t, prim, region, pattern).tiles,
            hits: [NO_HIT; 64],
            at: 0,
            count: 0,
        }
    }
}

impl Iterator for TileWalk {
    type Item = Hit;

    ghost next_gives = { YieldsFirst (λ s. s) };

    ghost remaining = { item_count (λ s. s) };

    #[inline(always)]
    fn next(&mut self) -> Option<Hit> {
        while self.at >= self.count {
            if self.tiles.is_done() {
                return None;
            }
            self.at = 0;
            self.count = self.tiles.next_tile(&mut self.hits);
        }
        let hit = self.hits[self.at];
        self.at += 1;
        Some(hit)
    }
}
