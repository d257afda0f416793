// What is computed once for a triangle, before its tiles are visited.
ghost use Rattle.std.specs.Prelude.{◌≡◌, ◌*◌, ◌^◌, ◌<◌, ◌≤◌, pos, neg_ℤ, ◌*ℤ◌, unsigned_abs, length, not};
ghost use Rattle.abuf_num.specs.declared.limits.TheConstants.{MAX_SIDE};
ghost use Rattle.abuf_raster.specs.Triangle.{IsWithin, AreWithin};
ghost use Rattle.abuf_raster.specs.Samples.{offsets_of, pixel_centre};
ghost use Rattle.abuf_raster.specs.Values.{values_at, none_below, plus_all, sample_change, sample_changes, AreAtMost};
ghost use Rattle.abuf_raster.specs.TrioNumbers.{numbers_of};
ghost use Rattle.abuf_raster.specs.Setup.{AreExtremes, AreLimits, AreLimitsFrom, AreSampleLimits, IsSetup, highest, lowest};
ghost use Rattle.abuf_raster.specs.Walk.{IsTile};

use crate::pattern::{Pattern, sample_position};
use crate::point::Point;
use crate::stepping::{Trio, change_of_edge, changes, farthest, values_at};
use crate::tile::Tile;
use crate::triangle::ScreenTri;
use crate::width::Width;
use abuf_num::difference;

/// For each edge, the least and the greatest change of its value from a pixel's centre to a sample of the pixel.
#[derive(Clone, Copy)]
pub(crate) struct Extremes<V> {
    pub(crate) min: Trio<V>,
    pub(crate) max: Trio<V>,
}

/// The least values of an edge at a pixel's centre with which it accepts the first eight samples, and the others. Where a pattern has
/// fewer, the places behind the last are of no use.
#[derive(Clone, Copy)]
pub(crate) struct EdgeLimits {
    pub(crate) low: [i64; 8],
    pub(crate) high: [i64; 8],
}

/// The limits of the three edges.
#[derive(Clone, Copy)]
pub(crate) struct SampleLimits {
    pub(crate) ab: EdgeLimits,
    pub(crate) bc: EdgeLimits,
    pub(crate) ca: EdgeLimits,
}

/// The values of the edges of a triangle in positive order at the centre of pixel (0, 0), and their extremes.
#[derive(Clone, Copy)]
pub(crate) struct Setup<V> {
    pub(crate) start: Trio<V>,
    pub(crate) samples: Extremes<V>,
}

/// A distance of so many sixteenths of a pixel.
#[inline(always)]
fn sixteenths(offset: i32) -> i64
    requires { unsigned_abs offset ≤ 8 }
    ensures value { result ≡ pos 16 *ℤ offset }
    ensures small { unsigned_abs result ≤ 128 }
{
    16 * offset as i64
}

/// How the value of an edge changes from a pixel's centre to sample k.
#[inline(always)]
fn change_to_sample<V: Width>(a: Point, b: Point, pattern: Pattern, k: u32) -> V
    requires wide { 2 ^ 22 ≤ V.reach }
    requires a_near { IsWithin V.reach a }
    requires b_near { IsWithin V.reach b }
    requires a_small { IsWithin (2 ^ 45) a }
    requires b_small { IsWithin (2 ^ 45) b }
    requires sample { k < length (offsets_of pattern) }
    ensures { V.number result ≡ sample_change a b (offsets_of pattern) k }
{
    let offset = pattern.offset(k);
    change_of_edge::<V>(a, b, sixteenths(offset.0), sixteenths(offset.1))
}

/// The product of a difference of coordinates and a distance within a pixel.
#[inline(always)]
fn short_product(difference: i64, distance: i64) -> i64
    requires difference_small { unsigned_abs difference < 2 ^ 46 }
    requires distance_small { unsigned_abs distance ≤ 128 }
    ensures value { result ≡ difference *ℤ distance }
    ensures small { unsigned_abs result ≤ 2 ^ 53 }
{
    difference * distance
}

/// The least value of an edge at a pixel's centre with which it accepts sample k. 64 bits hold it, however large the triangle.
#[inline(always)]
fn sample_limit(a: Point, b: Point, pattern: Pattern, k: u32) -> i64
    requires a_near { IsWithin (2 ^ 45) a }
    requires b_near { IsWithin (2 ^ 45) b }
    requires sample { k < length (offsets_of pattern) }
    ensures value { result ≡ neg_ℤ (sample_change a b (offsets_of pattern) k) }
    ensures small { unsigned_abs result ≤ 2 ^ 54 }
{
    let offset = pattern.offset(k);
    let down = short_product(difference(b.x, a.x), sixteenths(offset.1));
    let across = short_product(difference(a.y, b.y), sixteenths(offset.0));
    -(down + across)
}

/// The least values of an edge at a pixel's centre with which it accepts each of eight samples, from this one on.
#[inline(always)]
fn limits_from(a: Point, b: Point, pattern: Pattern, from: u32) -> [i64; 8]
    requires a_near { IsWithin (2 ^ 45) a }
    requires b_near { IsWithin (2 ^ 45) b }
    requires from { from ≤ 8 }
    ensures { AreLimitsFrom a b (offsets_of pattern) from result }
{
    let mut limits = [0; 8];
    for k in 0..8 {
        if from + k < pattern.size() {
            limits[k as usize] = sample_limit(a, b, pattern, from + k);
        }
    }
    limits
}

impl EdgeLimits {
    #[inline(always)]
    fn new(a: Point, b: Point, pattern: Pattern) -> EdgeLimits
        requires a_near { IsWithin (2 ^ 45) a }
        requires b_near { IsWithin (2 ^ 45) b }
        ensures { AreLimits a b (offsets_of pattern) result }
    {
        EdgeLimits {
            low: limits_from(a, b, pattern, 0),
            high: limits_from(a, b, pattern, 8),
        }
    }
}

impl SampleLimits {
    #[inline(always)]
    pub(crate) fn new(t: &ScreenTri, pattern: Pattern) -> SampleLimits
        ensures { AreSampleLimits t.now (offsets_of pattern) result }
    {
        SampleLimits {
            ab: EdgeLimits::new(t.a, t.b, pattern),
            bc: EdgeLimits::new(t.b, t.c, pattern),
            ca: EdgeLimits::new(t.c, t.a, pattern),
        }
    }
}

/// How the values of the three edges change.
#[inline(always)]
fn changes_to_sample<V: Width>(t: &ScreenTri, pattern: Pattern, k: u32) -> Trio<V>
    requires wide { 2 ^ 22 ≤ V.reach }
    requires near { AreWithin V.reach t.now }
    requires sample { k < length (offsets_of pattern) }
    ensures { numbers_of V.number result ≡ sample_changes t.now (offsets_of pattern) k }
{
    Trio {
        ab: change_to_sample::<V>(t.a, t.b, pattern, k),
        bc: change_to_sample::<V>(t.b, t.c, pattern, k),
        ca: change_to_sample::<V>(t.c, t.a, pattern, k),
    }
}

/// The extremes over the samples up to sample `to`, from those up to sample `from`.
#[inline(always)]
fn more_extremes<V: Width>(
    t: &ScreenTri,
    pattern: Pattern,
    from: u32,
    to: u32,
    before: Extremes<V>,
) -> Extremes<V>
    requires wide { 2 ^ 22 ≤ V.reach }
    requires near { AreWithin V.reach t.now }
    requires order { from ≤ to }
    requires end { to ≤ length (offsets_of pattern) }
    requires before { AreExtremes V.number V.reach t.now (offsets_of pattern) from before }
    ensures { AreExtremes V.number V.reach t.now (offsets_of pattern) to result }
{
    let mut extremes = before;
    for k in from..to {
        let change = changes_to_sample::<V>(t, pattern, k);
        extremes = Extremes {
            min: extremes.min.lower(change),
            max: extremes.max.higher(change),
        };
    }
    extremes
}

/// The extremes over all samples.
#[inline(always)]
pub(crate) fn all_extremes<V: Width>(t: &ScreenTri, pattern: Pattern) -> Extremes<V>
    requires wide { 2 ^ 22 ≤ V.reach }
    requires near { AreWithin V.reach t.now }
    ensures { AreExtremes V.number V.reach t.now (offsets_of pattern) (length (offsets_of pattern)) result }
{
    let first = changes_to_sample::<V>(t, pattern, 0);
    let first = Extremes {
        min: first,
        max: first,
    };
    let size = pattern.size();
    if size > 8 {
        // Two short loops are unrolled where a long one is not.
        let half = more_extremes(t, pattern, 1, 8, first);
        more_extremes(t, pattern, 8, size, half)
    } else {
        more_extremes(t, pattern, 1, size, first)
    }
}

impl<V: Width> Extremes<V> {
    /// At least the values at the samples of a pixel with these values at its centre.
    #[inline(always)]
    pub(crate) fn highest(self, at: Trio<V>) -> Trio<V>
        requires at { AreAtMost (9 * (V.reach * V.reach)) (numbers_of V.number at) }
        requires max { AreAtMost (V.reach * V.reach) (numbers_of V.number self.max) }
        ensures { numbers_of V.number result ≡ plus_all (numbers_of V.number at) (numbers_of V.number self.max) }
    {
        at.plus(self.max)
    }
}

impl<V: Width> Setup<V> {
    pub(crate) fn new(t: &ScreenTri, pattern: Pattern) -> Setup<V>
        requires wide { 2 ^ 22 ≤ V.reach }
        requires near { AreWithin V.reach t.now }
        ensures { IsSetup V.number V.reach t.now (offsets_of pattern) result }
    {
        // A body for each pattern, so that its offsets are constants there.
        let samples = match pattern {
            Pattern::One => all_extremes::<V>(t, Pattern::One),
            Pattern::Two => all_extremes::<V>(t, Pattern::Two),
            Pattern::Four => all_extremes::<V>(t, Pattern::Four),
            Pattern::Eight => all_extremes::<V>(t, Pattern::Eight),
            Pattern::Sixteen => all_extremes::<V>(t, Pattern::Sixteen),
        };
        Setup {
            start: values_at::<V>(t, sample_position((0, 0), 0, 0)),
            samples,
        }
    }

    /// The values at the centre of pixel (x, y).
    #[inline(always)]
    pub(crate) fn values_at(&self, t: &ScreenTri, x: u32, y: u32) -> Trio<V>
        requires wide { 2 ^ 22 ≤ V.reach }
        requires near { AreWithin V.reach t.now }
        requires start { numbers_of V.number self.now.start ≡ values_at t.now (pixel_centre 0 0) }
        requires x_small { x < MAX_SIDE }
        requires y_small { y < MAX_SIDE }
        ensures value { numbers_of V.number result ≡ values_at t.now (pixel_centre x y) }
        ensures small { AreAtMost (9 * (V.reach * V.reach)) (numbers_of V.number result) }
    {
        self.start
            .plus(changes::<V>(t, (256 * x) as i64, (256 * y) as i64))
    }

    /// An edge accepts no sample of the tile, whose first pixel has these values at its centre.
    #[inline(always)]
    pub(crate) fn rejects(&self, t: &ScreenTri, start: Trio<V>, tile: Tile) -> bool
        requires wide { 2 ^ 22 ≤ V.reach }
        requires near { AreWithin V.reach t.now }
        requires start { AreAtMost (9 * (V.reach * V.reach)) (numbers_of V.number start) }
        requires samples { AreAtMost (V.reach * V.reach) (numbers_of V.number self.now.samples.max) }
        requires tile { IsTile tile }
        ensures { result ≡ not (none_below (highest t.now (numbers_of V.number start) tile (numbers_of V.number self.now.samples.max))) }
    {
        let highest = start.plus(farthest(t, tile.w - 1, tile.h - 1, false));
        !highest.plus(self.samples.max).none_below()
    }

    /// The three edges accept all samples of the tile.
    #[inline(always)]
    pub(crate) fn accepts(&self, t: &ScreenTri, start: Trio<V>, tile: Tile) -> bool
        requires wide { 2 ^ 22 ≤ V.reach }
        requires near { AreWithin V.reach t.now }
        requires start { AreAtMost (9 * (V.reach * V.reach)) (numbers_of V.number start) }
        requires samples { AreAtMost (V.reach * V.reach) (numbers_of V.number self.now.samples.min) }
        requires tile { IsTile tile }
        ensures { result ≡ none_below (lowest t.now (numbers_of V.number start) tile (numbers_of V.number self.now.samples.min)) }
    {
        let lowest = start.plus(farthest(t, tile.w - 1, tile.h - 1, true));
        lowest.plus(self.samples.min).none_below()
    }
}
