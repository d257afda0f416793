// The hits of a triangle in a tile of at most 8 by 8 pixels.
ghost use Rattle.std.specs.Prelude.{◌≡◌, ℕ, false, if◌then◌else◌, ◌+◌, ◌*◌, ◌^◌, ◌<◌, ◌≤◌, pos, ◌<ℤ◌, ◌≤ℤ◌, ◌+ℤ◌, length, take, ◌++◌};
ghost use Rattle.abuf_num.specs.declared.limits.TheConstants.{MAX_SIDE};
ghost use Rattle.abuf_raster.specs.Edge.{edge_function};
ghost use Rattle.abuf_raster.specs.Triangle.{AreWithin};
ghost use Rattle.abuf_raster.specs.Samples.{offsets_of, pixel_centre};
ghost use Rattle.abuf_raster.specs.Values.{values_at, none_below, AreAtMost, mask_of_values, accepted_below};
ghost use Rattle.abuf_raster.specs.TrioNumbers.{numbers_of};
ghost use Rattle.abuf_raster.specs.Walk.{row_hits, block_hits, hit_of, found, full_row, full_hits, IsTile};
ghost use Rattle.abuf_raster.specs.Setup.{AreExtremes, AreLimits, AreLimitsFrom, AreSampleLimits, IsSetup};

use crate::fragment::Fragment;
use crate::pattern::Pattern;
use crate::point::Point;
use crate::region::Hit;
use crate::setup::{EdgeLimits, Extremes, SampleLimits, Setup, all_extremes};
use crate::stepping::{Trio, changes};
use crate::triangle::ScreenTri;
use crate::width::Width;

/// A tile of at most 8 by 8 pixels.
#[derive(Clone, Copy)]
pub(crate) struct Tile {
    pub(crate) x: u32,
    pub(crate) y: u32,
    pub(crate) w: u32,
    pub(crate) h: u32,
}

/// The pixels of a row from pixel (x, y) on, at most 8.
#[derive(Clone, Copy)]
pub(crate) struct RowSpan {
    pub(crate) x: u32,
    pub(crate) y: u32,
    pub(crate) w: u32,
}

/// An edge of a triangle in positive order, from a to b, and its value at the centre of a pixel.
#[derive(Clone, Copy)]
pub(crate) struct Edge<V> {
    a: Point,
    b: Point,
    value: V,
}

/// The pixels of a row, and the values at the centre of the first.
#[derive(Clone, Copy)]
struct RowStart<V> {
    span: RowSpan,
    values: Trio<V>,
}

/// The number of a primitive, the pattern that it is sampled in, and its extremes there.
#[derive(Clone, Copy)]
struct SampledPrimitive<V> {
    number: u32,
    pattern: Pattern,
    samples: Extremes<V>,
}

impl<V: Width> SampledPrimitive<V> {
    /// The primitive, sampled in this pattern.
    #[inline(always)]
    fn by(self, pattern: Pattern) -> SampledPrimitive<V>
        ensures { result ≡ record { number = self.number; pattern = pattern; samples = self.samples } }
    {
        SampledPrimitive { pattern, ..self }
    }
}

/// The mask of bit k alone if `set` is true, and otherwise 0.
#[inline(always)]
fn bit(set: bool, k: u32) -> u16
    requires { k < 16 }
    ensures { result ≡ (if set then 2 ^ k else 0) }
{
    (set as u16) << k
}

/// The samples that the edge accepts, from sample `from` on and up to sample `to`, put to those before.
#[inline(always)]
fn more_samples<V: Width>(
    edge: Edge<V>,
    limits: &[i64; 8],
    pattern: Pattern,
    from: u32,
    to: u32,
    before: u16,
) -> u16
    requires limits { AreLimitsFrom edge.a edge.b (offsets_of pattern) from limits.now }
    requires order { (from ≤ to) × (to ≤ from + 8) }
    requires end { to ≤ length (offsets_of pattern) }
    requires before { before ≡ accepted_below edge.a edge.b (offsets_of pattern) (V.number edge.value) from }
    ensures { result ≡ accepted_below edge.a edge.b (offsets_of pattern) (V.number edge.value) to }
{
    let mut mask = before;
    for k in from..to {
        let limit = limits[(k - from) as usize];
        mask += bit(!edge.value.is_below_limit(limit), k);
    }
    mask
}

/// The samples that the edge accepts.
#[inline(always)]
fn accepted<V: Width>(edge: Edge<V>, limits: &EdgeLimits, pattern: Pattern) -> u16
    requires { AreLimits edge.a edge.b (offsets_of pattern) limits.now }
    ensures { result ≡ accepted_below edge.a edge.b (offsets_of pattern) (V.number edge.value) (length (offsets_of pattern)) }
{
    let size = pattern.size();
    if size > 8 {
        // Two short loops are unrolled where a long one is not.
        let half = more_samples(edge, &limits.low, pattern, 0, 8, 0);
        more_samples(edge, &limits.high, pattern, 8, size, half)
    } else {
        more_samples(edge, &limits.low, pattern, 0, size, 0)
    }
}

/// The mask of a pixel with these values at its centre: 0 where an edge accepts none of its samples, all where the three edges accept
/// all. Else each sample is tested by each edge, which takes less time than to ask which edges cross the pixel.
#[inline(always)]
fn pixel_mask<V: Width>(
    t: &ScreenTri,
    pattern: Pattern,
    samples: Extremes<V>,
    limits: &SampleLimits,
    at: Trio<V>,
) -> u16
    requires samples { AreExtremes V.number V.reach t.now (offsets_of pattern) (length (offsets_of pattern)) samples }
    requires limits { AreSampleLimits t.now (offsets_of pattern) limits.now }
    requires room { AreAtMost (9 * (V.reach * V.reach)) (numbers_of V.number at) }
    ensures { result ≡ mask_of_values t.now (offsets_of pattern) (numbers_of V.number at) }
{
    if !samples.highest(at).none_below() {
        return 0;
    }
    if at.plus(samples.min).none_below() {
        return pattern.full_mask();
    }
    let ab = Edge {
        a: t.a,
        b: t.b,
        value: at.ab,
    };
    let bc = Edge {
        a: t.b,
        b: t.c,
        value: at.bc,
    };
    let ca = Edge {
        a: t.c,
        b: t.a,
        value: at.ca,
    };
    accepted(ab, &limits.ab, pattern)
        & accepted(bc, &limits.bc, pattern)
        & accepted(ca, &limits.ca, pattern)
}

/// A hit, or none where the mask is 0, put at place `count` of the hits.
#[inline(always)]
fn put(hits: &mut [Hit; 64], count: usize, prim: u32, x: u32, y: u32, mask: u16) -> usize
    requires { count < 64 }
    ensures room { result ≤ count + 1 }
    ensures hits { take result hits.new ≡ take count hits.old ++ found (hit_of prim x y mask) }
{
    hits[count] = Hit {
        x,
        y,
        fragment: Fragment { prim, mask },
    };
    count + (mask != 0) as usize
}

/// Whether the mask of a pixel is asked where these are the highest values of the edges: unless one of them accepts no sample. With a
/// single sample every pixel is asked, which then takes no branch.
#[inline(always)]
fn is_tested<V: Width>(pattern: Pattern, highest: Trio<V>) -> bool
    ensures { result ≡ false → none_below (numbers_of V.number highest) ≡ false }
{
    pattern.size() == 1 || highest.none_below()
}

/// The hits in a row of pixels, whose first has these values at its centre, put behind the first `count` hits. No pixel is asked
/// behind the one from which on an edge accepts no sample.
#[inline(always)]
fn row<V: Width>(
    t: &ScreenTri,
    primitive: SampledPrimitive<V>,
    limits: &SampleLimits,
    start: RowStart<V>,
    hits: &mut [Hit; 64],
    count: usize,
) -> usize
    requires wide { 2 ^ 22 ≤ V.reach }
    requires near { AreWithin V.reach t.now }
    requires positive { pos 0 <ℤ edge_function t.now.a t.now.b t.now.c }
    requires samples { AreExtremes V.number V.reach t.now (offsets_of primitive.pattern) (length (offsets_of primitive.pattern)) primitive.samples }
    requires limits { AreSampleLimits t.now (offsets_of primitive.pattern) limits.now }
    requires start { numbers_of V.number start.values ≡ values_at t.now (pixel_centre start.span.x start.span.y) }
    requires x_small { start.span.x + start.span.w ≤ MAX_SIDE }
    requires y_small { start.span.y < MAX_SIDE }
    requires room { count + start.span.w ≤ 64 }
    ensures room { result ≤ count + start.span.w }
    ensures hits { take result hits.new ≡ take count hits.old
        ++ row_hits t.now primitive.number (offsets_of primitive.pattern) start.span.x start.span.w start.span.y }
{
    let right = changes::<V>(t, 256, 0);
    let span = start.span;
    let mut at = start.values;
    let mut count = count;
    for column in 0..span.w {
        let max = primitive.samples.highest(at);
        if is_tested(primitive.pattern, max) {
            let mask = pixel_mask(t, primitive.pattern, primitive.samples, limits, at);
            count = put(hits, count, primitive.number, span.x + column, span.y, mask);
        } else if max.stays_below(right) {
            break;
        }
        at = at.plus(right);
    }
    count
}

/// The hits in a tile whose first pixel has these values at its centre, each pixel tested.
#[inline(always)]
fn tested_tile<V: Width>(
    t: &ScreenTri,
    primitive: SampledPrimitive<V>,
    tile: Tile,
    start: Trio<V>,
    hits: &mut [Hit; 64],
) -> usize
    requires wide { 2 ^ 22 ≤ V.reach }
    requires near { AreWithin V.reach t.now }
    requires positive { pos 0 <ℤ edge_function t.now.a t.now.b t.now.c }
    requires samples { AreExtremes V.number V.reach t.now (offsets_of primitive.pattern) (length (offsets_of primitive.pattern)) primitive.samples }
    requires tile { IsTile tile }
    requires start { numbers_of V.number start ≡ values_at t.now (pixel_centre tile.x tile.y) }
    ensures room { result ≤ 64 }
    ensures hits { take result hits.new ≡ block_hits t.now primitive.number (offsets_of primitive.pattern) tile.x tile.w tile.y tile.h }
{
    let limits = SampleLimits::new(t, primitive.pattern);
    let down = changes::<V>(t, 0, 256);
    let mut at = start;
    let mut count = 0;
    for line in 0..tile.h {
        let span = RowSpan {
            x: tile.x,
            y: tile.y + line,
            w: tile.w,
        };
        let start = RowStart { span, values: at };
        count = row(t, primitive, &limits, start, hits, count);
        at = at.plus(down);
    }
    count
}

/// The hits in a row of pixels that all have one mask, put behind the first `count` hits.
#[inline(always)]
fn full_row(prim: u32, mask: u16, span: RowSpan, hits: &mut [Hit; 64], count: usize) -> usize
    requires some { 0 < mask }
    requires x_small { span.x + span.w ≤ MAX_SIDE }
    requires room { count + span.w ≤ 64 }
    ensures room { result ≤ count + span.w }
    ensures hits { take result hits.new ≡ take count hits.old ++ full_row prim mask span.x span.w span.y }
{
    let mut count = count;
    for column in 0..span.w {
        count = put(hits, count, prim, span.x + column, span.y, mask);
    }
    count
}

/// The hits in a tile whose pixels all have one mask.
#[inline(never)]
fn full_tile(prim: u32, mask: u16, tile: Tile, hits: &mut [Hit; 64]) -> usize
    requires tile { IsTile tile }
    requires some { 0 < mask }
    ensures room { result ≤ 64 }
    ensures hits { take result hits.new ≡ full_hits prim mask tile.x tile.w tile.y tile.h }
{
    let mut count = 0;
    for line in 0..tile.h {
        let span = RowSpan {
            x: tile.x,
            y: tile.y + line,
            w: tile.w,
        };
        count = full_row(prim, mask, span, hits, count);
    }
    count
}

/// The hits of a triangle in positive order in a tile: none where an edge accepts no sample in it, every pixel with all
/// samples where the three edges accept all.
#[inline(never)]
pub(crate) fn tile_by<V: Width>(
    t: &ScreenTri,
    setup: &Setup<V>,
    prim: u32,
    pattern: Pattern,
    tile: Tile,
    hits: &mut [Hit; 64],
) -> usize
    requires wide { 2 ^ 22 ≤ V.reach }
    requires near { AreWithin V.reach t.now }
    requires positive { pos 0 <ℤ edge_function t.now.a t.now.b t.now.c }
    requires setup { IsSetup V.number V.reach t.now (offsets_of pattern) setup.now }
    requires tile { IsTile tile }
    ensures room { result ≤ 64 }
    ensures hits { take result hits.new ≡ block_hits t.now prim (offsets_of pattern) tile.x tile.w tile.y tile.h }
{
    let start = setup.values_at(t, tile.x, tile.y);
    if setup.rejects(t, start, tile) {
        return 0;
    }
    if setup.accepts(t, start, tile) {
        return full_tile(prim, pattern.full_mask(), tile, hits);
    }
    let primitive = SampledPrimitive {
        number: prim,
        pattern,
        samples: setup.samples,
    };
    // A body for each pattern, so that its offsets are constants there. A sample at the centre has no extremes.
    match pattern {
        Pattern::One => {
            let primitive = SampledPrimitive {
                samples: all_extremes(t, Pattern::One),
                ..primitive
            };
            tested_tile(t, primitive.by(Pattern::One), tile, start, hits)
        }
        Pattern::Two => tested_tile(t, primitive.by(Pattern::Two), tile, start, hits),
        Pattern::Four => tested_tile(t, primitive.by(Pattern::Four), tile, start, hits),
        Pattern::Eight => tested_tile(t, primitive.by(Pattern::Eight), tile, start, hits),
        Pattern::Sixteen => tested_tile(t, primitive.by(Pattern::Sixteen), tile, start, hits),
    }
}
