// The number of fragments of a triangle, where nobody asks which they are, and a bound of it.
ghost use Rattle.std.specs.Prelude.{ℕ, ℤ, List, ◌≡◌, ◌+◌, ◌*◌, ◌^◌, ◌≤◌, ◌<◌, ◌<ℤ◌, pos, length};
ghost use Rattle.abuf_num.specs.declared.limits.TheConstants.{MAX_SIDE};
ghost use Rattle.abuf_raster.specs.Edge.{edge_function};
ghost use Rattle.abuf_raster.specs.Triangle.{AreWithin};
ghost use Rattle.abuf_raster.specs.Samples.{offsets_of, pixel_centre};
ghost use Rattle.abuf_raster.specs.Hits.{hits};
ghost use Rattle.abuf_raster.specs.Values.{values_at, AreAtMost};
ghost use Rattle.abuf_raster.specs.TrioNumbers.{numbers_of};
ghost use Rattle.abuf_raster.specs.Setup.{IsSetup};
ghost use Rattle.abuf_raster.specs.Walk.{hits_in_span, hits_in_tile, IsTile};

use crate::pattern::Pattern;
use crate::region::{NO_HIT, Region, region_law};
use crate::setup::Setup;
use crate::stepping::{Trio, changes};
use crate::tile::{RowSpan, Tile};
use crate::tiles::Tiles;
use crate::triangle::ScreenTri;
use crate::width::Width;

/// At least as many as the hits in a row of pixels, whose first has these values at its centre: those that no edge rejects.
#[inline(always)]
fn max_in_row<V: Width>(t: &ScreenTri, setup: &Setup<V>, span: RowSpan, start: Trio<V>) -> u32
    requires wide { 2 ^ 22 ≤ V.reach }
    requires near { AreWithin V.reach t.now }
    requires positive { pos 0 <ℤ edge_function t.now.a t.now.b t.now.c }
    requires room { AreAtMost (V.reach * V.reach) (numbers_of V.number setup.now.samples.max) }
    requires start { numbers_of V.number start ≡ values_at t.now (pixel_centre span.x span.y) }
    requires x_small { span.x + span.w ≤ MAX_SIDE }
    requires y_small { span.y < MAX_SIDE }
    ensures bound { (o : List (ℤ × ℤ)) (n : ℕ) → IsSetup V.number V.reach t.now o setup.now → length (hits_in_span t.now n o span) ≤ result }
    ensures few { result ≤ span.w }
{
    let right = changes::<V>(t, 256, 0);
    let mut at = start;
    let mut most = 0;
    for _column in 0..span.w {
        most += at.plus(setup.samples.max).none_below() as u32;
        at = at.plus(right);
    }
    most
}

/// At least as many as the hits in a tile: none where an edge rejects all of it, all pixels where the three edges accept all, and
/// else those that no edge rejects.
pub(crate) fn max_in_tile<V: Width>(t: &ScreenTri, setup: &Setup<V>, tile: Tile) -> u32
    requires wide { 2 ^ 22 ≤ V.reach }
    requires near { AreWithin V.reach t.now }
    requires positive { pos 0 <ℤ edge_function t.now.a t.now.b t.now.c }
    requires start { numbers_of V.number setup.now.start ≡ values_at t.now (pixel_centre 0 0) }
    requires room { AreAtMost (V.reach * V.reach) (numbers_of V.number setup.now.samples.max) }
    requires min_room { AreAtMost (V.reach * V.reach) (numbers_of V.number setup.now.samples.min) }
    requires tile { IsTile tile }
    ensures bound { (o : List (ℤ × ℤ)) (n : ℕ) → IsSetup V.number V.reach t.now o setup.now → length (hits_in_tile t.now n o tile) ≤ result }
    ensures few { result ≤ tile.w * tile.h }
{
    let start = setup.values_at(t, tile.x, tile.y);
    if setup.rejects(t, start, tile) {
        return 0;
    }
    if setup.accepts(t, start, tile) {
        return tile.w * tile.h;
    }
    let down = changes::<V>(t, 0, 256);
    let mut at = start;
    let mut most = 0;
    for line in 0..tile.h {
        let span = RowSpan {
            x: tile.x,
            y: tile.y + line,
            w: tile.w,
        };
        most += max_in_row(t, setup, span, at);
        at = at.plus(down);
    }
    most
}

/// At least as many as the pixels in which the triangle covers a sample, so that a pool needn't have more nodes than a scene
/// can take: each pixel of the region in which no edge rejects all samples.
pub fn max_hits(t: &ScreenTri, region: Region, pattern: Pattern) -> u32
    ensures bound { (prim : ℕ) → length (hits t.now prim (offsets_of pattern) region) ≤ result }
    ensures few { result ≤ region.w * region.h }
{
    region_law(region);
    let mut tiles = Tiles::new(t, 0, region, pattern);
    let mut most = 0;
    while !tiles.is_done() {
        most += tiles.max_in_next();
    }
    most
}

/// The number of pixels in which the triangle covers a sample. Tiles that it covers take no longer the more pixels they have.
pub fn count_hits(t: &ScreenTri, region: Region, pattern: Pattern) -> u32
    ensures count { (prim : ℕ) → result ≡ length (hits t.now prim (offsets_of pattern) region) }
    ensures few { result ≤ region.w * region.h }
{
    region_law(region);
    let mut tiles = Tiles::new(t, 0, region, pattern);
    let mut hits = [NO_HIT; 64];
    let mut count = 0;
    while !tiles.is_done() {
        count += tiles.count_next(&mut hits) as u32;
    }
    count
}
