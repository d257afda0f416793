// The depth key.
ghost use Rattle.std.specs.Prelude.{ℕ, ℤ, ◌≡◌, ◌+◌, ◌*◌, ◌^◌, ◌<◌, ◌≤◌, pos, ◌+ℤ◌, ◌-ℤ◌, ◌*ℤ◌, ◌<ℤ◌, ◌≤ℤ◌, true, length, unsigned_abs};
ghost use Rattle.abuf_num.specs.Division.{floor_div};
ghost use Rattle.abuf_num.specs.declared.limits.TheConstants.{MAX_DEPTH, MAX_SIDE};
ghost use Rattle.abuf_raster.specs.Triangle.{IsWithin};
ghost use Rattle.abuf_raster.specs.Samples.{offsets_of};
ghost use Rattle.abuf_raster.specs.Coverage.{covers};
ghost use Rattle.abuf_raster.specs.Depth.{weighted_depth, depth_key, spread, IsMinKey, IsMaxKey, IsMinQuotient, IsMaxQuotient, min_depth, max_depth, HasNoKeyAbove, HasNoKeyBelow};

use crate::edge::edge_function;
use crate::pattern::{Pattern, sample_position};
use crate::point::Point;
use crate::triangle::ScreenTri;
use abuf_num::floor_div;
use abuf_num::limits::MAX_DEPTH;

/// An edge value times a depth value.
fn weighted(value: i128, q: u32) -> i128
    requires value_small { unsigned_abs value < 2 ^ 93 }
    requires q_small { q ≤ MAX_DEPTH }
    ensures value { result ≡ value *ℤ pos q }
    ensures bound { unsigned_abs result ≤ 2 ^ 117 }
{
    value * q as i128
}

/// How far the edge function of the edge from a to b changes at most where a position moves by half a pixel either way, weighted
/// by a difference of depth values.
fn weighted_reach(a: Point, b: Point, p: u32, q: u32) -> i128
    requires near { IsWithin (2 ^ 45) a × IsWithin (2 ^ 45) b }
    requires small { (p ≤ MAX_DEPTH) × (q ≤ MAX_DEPTH) }
    ensures value { result ≡ pos (128 * (unsigned_abs (b.x -ℤ a.x) + unsigned_abs (b.y -ℤ a.y)) * unsigned_abs (pos p -ℤ pos q)) }
    ensures bound { unsigned_abs result ≤ 2 ^ 117 }
{
    let reach = 128 * (b.x.abs_diff(a.x) + b.y.abs_diff(a.y));
    weighted(reach as i128, p.abs_diff(q))
}

/// The value, clamped to 0 to the greatest key.
fn clamped(value: i128) -> u32
    ensures small { result ≤ MAX_DEPTH }
    ensures low { (key : ℕ) → value ≤ℤ pos key → result ≤ key }
    ensures high { (key : ℕ) → key ≤ MAX_DEPTH → pos key ≤ℤ value → key ≤ result }
{
    value.clamp(0, MAX_DEPTH as i128) as u32
}

/// A key that isn't above the quotient of any sum within the spread.
fn quotient_below(sum: i128, spread: i128, area: i128) -> u32
    requires sum { unsigned_abs sum < 2 ^ 120 }
    requires spread { unsigned_abs spread ≤ 2 ^ 118 }
    requires area { pos 0 <ℤ area }
    ensures small { result ≤ MAX_DEPTH }
    ensures low { (key : ℕ) → floor_div (sum -ℤ spread) area ≤ℤ pos key → result ≤ key }
{
    clamped(floor_div(sum - spread, area))
}

/// A key that isn't below the quotient of any sum within the spread.
fn quotient_above(sum: i128, spread: i128, area: i128) -> u32
    requires sum { unsigned_abs sum < 2 ^ 120 }
    requires spread { unsigned_abs spread ≤ 2 ^ 118 }
    requires area { pos 0 <ℤ area }
    ensures small { result ≤ MAX_DEPTH }
    ensures high { (key : ℕ) → key ≤ MAX_DEPTH → pos key ≤ℤ floor_div (sum +ℤ spread) area → key ≤ result }
{
    clamped(floor_div(sum + spread, area))
}

impl ScreenTri {
    fn weighted_depth(&self, s: Point) -> i128
        requires { IsWithin (2 ^ 45) s }
        ensures value { result ≡ weighted_depth self.now s }
        ensures bound { unsigned_abs result < 2 ^ 120 }
    {
        weighted(edge_function(self.b, self.c, s), self.qa)
            + weighted(edge_function(self.c, self.a, s), self.qb)
            + weighted(edge_function(self.a, self.b, s), self.qc)
    }

    fn spread(&self) -> i128
        ensures value { result ≡ pos (spread self.now) }
        ensures bound { unsigned_abs result ≤ 2 ^ 118 }
    {
        weighted_reach(self.c, self.a, self.qb, self.qa)
            + weighted_reach(self.a, self.b, self.qc, self.qa)
    }

    /// Bounds of the quotients, from 0 to 16777215, of weighted depths that differ from that at a position by at most the spread.
    fn bounds_at(&self, position: Point, area: i128) -> (u32, u32)
        requires position { IsWithin (2 ^ 45) position }
        ensures rising { result.0 ≤ result.1 }
        ensures small { result.1 ≤ MAX_DEPTH }
        ensures low { pos 0 <ℤ area → IsMinQuotient self.now position area result.0 }
        ensures high { pos 0 <ℤ area → IsMaxQuotient self.now position area result.1 }
    {
        if area <= 0 {
            return (0, MAX_DEPTH);
        }
        let sum = self.weighted_depth(position);
        let spread = self.spread();
        let low = quotient_below(sum, spread, area);
        let high = quotient_above(sum, spread, area);
        (low.min(high), high)
    }

    /// The least of the depth values at its corners, below which no depth key is.
    #[inline(always)]
    pub fn min_depth(&self) -> u32
        ensures value { result ≡ min_depth self.now }
        ensures keys { HasNoKeyBelow self.now result }
    {
        self.qa.min(self.qb.min(self.qc))
    }

    /// The greatest of the depth values at its corners, which no depth key passes.
    #[inline(always)]
    pub fn max_depth(&self) -> u32
        ensures value { result ≡ max_depth self.now }
        ensures small { result ≤ MAX_DEPTH }
        ensures keys { HasNoKeyAbove self.now result }
    {
        self.qa.max(self.qb.max(self.qc))
    }
}

/// The depth key of a triangle at sample k of pixel (x, y), which it covers: from 0 to 16777215; a greater key is nearer.
#[inline(never)]
pub fn depth_at(t: &ScreenTri, x: u32, y: u32, pattern: Pattern, k: u32) -> u32
    requires x_small { x < MAX_SIDE }
    requires y_small { y < MAX_SIDE }
    requires sample { k < length (offsets_of pattern) }
    requires covered { covers t.now (offsets_of pattern) x y k ≡ true }
    ensures key { result ≡ depth_key t.now (offsets_of pattern) x y k }
    ensures small { result ≤ MAX_DEPTH }
{
    let t = t.positive_order();
    let area = edge_function(t.a, t.b, t.c);
    let sum = t.weighted_depth(sample_position(pattern.offset(k), x, y));
    floor_div(sum, area) as u32
}

/// Bounds of the depth keys of a triangle at the samples of pixel (x, y) that it covers: no key there is below the first, nor
/// above the second.
#[inline(never)]
pub fn depth_bounds(t: &ScreenTri, x: u32, y: u32, pattern: Pattern) -> (u32, u32)
    requires x_small { x < MAX_SIDE }
    requires y_small { y < MAX_SIDE }
    ensures rising { result.0 ≤ result.1 }
    ensures small { result.1 ≤ MAX_DEPTH }
    ensures low { IsMinKey t.now (offsets_of pattern) x y result.0 }
    ensures high { IsMaxKey t.now (offsets_of pattern) x y result.1 }
{
    let centre = sample_position((0, 0), x, y);
    let t = t.positive_order();
    let area = edge_function(t.a, t.b, t.c);
    t.bounds_at(centre, area)
}
