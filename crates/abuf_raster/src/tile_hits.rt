// The fragments of a triangle in a region, tile by tile.
ghost use Rattle.std.specs.Prelude.{◌≡◌, ◌*◌, ◌<◌, ◌≤◌, ◌++◌, [], length, take, All, IsPermutation, MatchOption};
ghost use Rattle.abuf_raster.specs.Samples.{offsets_of};
ghost use Rattle.abuf_raster.specs.Hits.{IsHitIn, hits};

use crate::pattern::Pattern;
use crate::region::{Hit, Region, region_law};
use crate::tiles::Tiles;
use crate::triangle::ScreenTri;
use std::marker::Model;

/// The fragments of one triangle in a region that are still to come, as a `TileWalk` gives them, handed out by whole tiles of
/// 8 by 8 pixels. The order is not promised.
#[derive(Drop)]
pub struct TileHits {
    pub(crate) tiles: Tiles,
}

impl Model for TileHits {
    ghost use Rattle.std.specs.Prelude.{List};
    ghost use Rattle.abuf_raster.specs.declared.region.Hit.{Hit};
    ghost use Rattle.abuf_raster.specs.TilesLeft.{hits_left, IsTiles};

    ghost Value = { List Hit };

    ghost view = { λ w. hits_left w.tiles };

    ghost invariant = { λ w. IsTiles w.tiles };
}

impl TileHits {
    /// The pixels of the region in which the triangle covers a sample, with the primitive number `prim`.
    #[inline(always)]
    pub fn new(t: &ScreenTri, prim: u32, region: Region, pattern: Pattern) -> TileHits
        requires prim { prim < 2097152 }
        ensures hits { IsPermutation result (hits t.now prim (offsets_of pattern) region) }
        ensures within { All (IsHitIn region) result }
        ensures few { length result ≤ region.w * region.h }
    {
        region_law(region);
        TileHits {
            tiles: Tiles::new(t, prim, region, pattern),
        }
    }

    /// Puts the hits of the next tile that has any to the front of `hits`, and returns how many these are, or `None` if no
    /// hits are left.
    #[inline(always)]
    pub fn next_tile(&mut self, hits: &mut [Hit; 64]) -> Option<usize>
        ensures gives { MatchOption result (self.old ≡ []) (λ count. (0 < count) × (count ≤ 64) × (take count hits.new ++ self.new ≡ self.old)) }
        ensures long { length hits.new ≡ 64 }
    {
        while !self.tiles.is_done() {
            let count = self.tiles.next_tile(hits);
            if count > 0 {
                return Some(count);
            }
        }
        None
    }
}
