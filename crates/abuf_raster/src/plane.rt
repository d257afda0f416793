// The depth key as it is asked for many times over.
ghost use Rattle.std.specs.Prelude.{ℕ, ◌≡◌, ◌+◌, ◌-◌, ◌*◌, ◌/◌, ◌^◌, ◌<◌, ◌≤◌, pos, ℤ, ◌+ℤ◌, ◌*ℤ◌, ◌<ℤ◌, true, min, unsigned_abs, length, IfSome};
ghost use Rattle.std.specs.Int.{int_wrap, w64};
ghost use Rattle.abuf_num.specs.declared.limits.TheConstants.{MAX_DEPTH, MAX_SIDE};
ghost use Rattle.abuf_raster.specs.Edge.{edge_function};
ghost use Rattle.abuf_raster.specs.Triangle.{AreWithin};
ghost use Rattle.abuf_raster.specs.Samples.{offsets_of};
ghost use Rattle.abuf_raster.specs.Coverage.{covers};
ghost use Rattle.abuf_raster.specs.Depth.{depth_key, IsMinKey, IsMaxKey};
ghost use Rattle.abuf_raster.specs.Slopes.{slope, slope_across, slope_down};

use crate::pattern::{Pattern, sample_position};
use crate::point::Point;
use crate::triangle::ScreenTri;
use crate::triangle::depth::{depth_at, depth_bounds};
use crate::width::Width;
use abuf_num::limits::MAX_DEPTH;
use abuf_num::{Reciprocal, difference};
use std::marker::Model;
use std::snapshot::Snapshot;

/// The greatest sum of the two slopes, so that no weighted depth changes by more than 2^60 within a pixel.
const STEEPEST: u64 = 1 << 53;

/// A difference of coordinates, weighted by a depth value.
fn weighted(difference: i64, q: u32) -> i64
    requires difference_small { unsigned_abs difference ≤ 2 ^ 30 }
    requires q_small { q ≤ MAX_DEPTH }
    ensures value { result ≡ difference *ℤ pos q }
    ensures bound { unsigned_abs result ≤ 2 ^ 54 }
{
    difference * q as i64
}

/// The sum of three such differences.
fn slope(a: i64, b: i64, c: i64, qa: u32, qb: u32, qc: u32) -> i64
    requires small { (unsigned_abs a < 2 ^ 29) × (unsigned_abs b < 2 ^ 29) × (unsigned_abs c < 2 ^ 29) }
    requires depths { (qa ≤ MAX_DEPTH) × (qb ≤ MAX_DEPTH) × (qc ≤ MAX_DEPTH) }
    ensures value { result ≡ slope a b c qa qb qc }
    ensures bound { unsigned_abs result ≤ 2 ^ 56 }
{
    weighted(difference(b, c), qa) + weighted(difference(c, a), qb) + weighted(difference(a, b), qc)
}

/// A sum with one more product, modulo 2^64.
#[inline(always)]
fn more(sum: i64, factor: i64, distance: i64) -> i64
    ensures { result ≡ int_wrap w64 (sum +ℤ factor *ℤ distance) }
{
    sum.wrapping_add(factor.wrapping_mul(distance))
}

/// The coefficients of the plane of a triangle's depth values: its weighted depth is a sum, modulo 2^64, of a start and of a
/// slope for each of the two directions; over the area it is the depth value.
#[derive(Clone, Copy)]
pub(crate) struct Coefficients {
    pub(crate) across: i64,
    pub(crate) down: i64,
    pub(crate) start: i64,
    pub(crate) area: Reciprocal,
    ghost flat: { unsigned_abs across + unsigned_abs down ≤ 2 ^ 53 },
}

impl Coefficients {
    ghost use Rattle.abuf_raster.specs.Plane.{IsPlane, sum_at, value_of, AreBoundsAt};

    /// The coefficients for a triangle in positive order. Returns `None` if its coordinates, its area or its slopes are too
    /// large for them.
    fn of(t: &ScreenTri) -> Option<Coefficients>
        ensures { IfSome result (λ p. IsPlane t.now p) }
    {
        if !t.is_small() {
            return None;
        }
        let area = i64::edge_function(t.a, t.b, t.c);
        let max_depth = t.qa.max(t.qb).max(t.qc);
        let across = slope(t.a.y, t.b.y, t.c.y, t.qa, t.qb, t.qc);
        let down = slope(t.a.x, t.c.x, t.b.x, t.qa, t.qc, t.qb);
        let is_flat = across.unsigned_abs() + down.unsigned_abs() <= STEEPEST;
        if area <= 0 || area as u128 * (max_depth as u128 + 1) >= 1 << 62 || !is_flat {
            return None;
        }
        let at_corner = more(0, area, t.qa as i64);
        let at_side = more(at_corner, across, difference(0, t.a.x));
        let start = more(at_side, down, difference(0, t.a.y));
        Some(Coefficients {
            across,
            down,
            start,
            area: Reciprocal::of(area as u64),
        })
    }

    /// The weighted depth at s, modulo 2^64.
    #[inline(always)]
    fn sum(&self, s: Point) -> i64
        ensures { result ≡ sum_at self.now s }
    {
        more(more(self.start, self.across, s.x), self.down, s.y)
    }

    /// The depth value of a weighted depth, clamped to the greatest.
    #[inline(always)]
    fn depth_of(&self, sum: u64) -> u32
        requires { sum < 2 ^ 63 }
        ensures { result ≡ value_of self.now sum }
    {
        self.area.quotient(sum).min(MAX_DEPTH as u64) as u32
    }

    /// The depth value at s.
    #[inline(always)]
    fn key(&self, s: Point) -> u32
        ensures key { (n : ℕ) → sum_at self.now s ≡ pos n → result ≡ value_of self.now n }
        ensures small { result ≤ MAX_DEPTH }
    {
        self.depth_of(self.sum(s).max(0) as u64)
    }

    /// No more than this does the weighted depth change over a way of `reach` or less in each direction.
    #[inline(always)]
    fn spread(&self, reach: u32) -> u64
        requires { reach ≤ 128 }
        ensures value { result ≡ (unsigned_abs self.now.across + unsigned_abs self.now.down) * reach }
        ensures small { result ≤ 2 ^ 60 }
    {
        (self.across.unsigned_abs() + self.down.unsigned_abs()) * reach as u64
    }

    /// Bounds of the depth values of weighted depths from 0 on that differ from that at the centre by at most the spread.
    #[inline(always)]
    fn bounds(&self, centre: Point, spread: u64) -> (u32, u32)
        requires { spread ≤ 2 ^ 60 }
        ensures rising { result.0 ≤ result.1 }
        ensures small { result.1 ≤ MAX_DEPTH }
        ensures between { AreBoundsAt self.now centre spread result.0 result.1 }
    {
        let top = more(self.sum(centre), spread as i64, 1);
        if top < 0 {
            return (0, MAX_DEPTH);
        }
        let top = top as u64;
        let low = self.depth_of(top.saturating_sub(2 * spread));
        (low, self.depth_of(top))
    }
}

/// The plane of a triangle's depth values, made once so that its depth keys can be asked for many times over.
#[derive(Drop)]
pub struct DepthPlane {
    /// The triangle, for the contracts alone.
    triangle: Snapshot<ScreenTri>,
    coefficients: Option<Coefficients>,
}

impl Model for DepthPlane {
    ghost use Rattle.std.specs.Prelude.{IfSome};
    ghost use Rattle.abuf_raster.specs.Triangle.{Triangle, positive_order};
    ghost use Rattle.abuf_raster.specs.Plane.{IsPlane};

    ghost Value = { Triangle };

    ghost view = { λ p. p.triangle.value };

    ghost invariant = { λ p. IfSome p.coefficients (λ c. IsPlane (positive_order p.triangle.value) c) };
}

impl DepthPlane {
    /// The plane of the triangle's depth values.
    pub fn new(t: &ScreenTri) -> DepthPlane
        ensures { result ≡ t.now }
    {
        DepthPlane {
            triangle: Snapshot::of(t),
            coefficients: Coefficients::of(&t.positive_order()),
        }
    }

    /// The depth key at sample k of pixel (x, y), which the triangle covers, as `depth_at` gives it. The triangle is read only
    /// where the plane has no coefficients.
    #[inline(always)]
    pub fn key(&self, t: &ScreenTri, x: u32, y: u32, pattern: Pattern, k: u32) -> u32
        requires plane { self.now ≡ t.now }
        requires x_small { x < MAX_SIDE }
        requires y_small { y < MAX_SIDE }
        requires sample { k < length (offsets_of pattern) }
        requires covered { covers self.now (offsets_of pattern) x y k ≡ true }
        ensures key { result ≡ depth_key self.now (offsets_of pattern) x y k }
        ensures small { result ≤ MAX_DEPTH }
    {
        match self.coefficients {
            Some(coefficients) => coefficients.key(sample_position(pattern.offset(k), x, y)),
            None => depth_at(t, x, y, pattern, k),
        }
    }

    /// Bounds of the depth keys at the samples of pixel (x, y) that the triangle covers: no key there is below the first, nor
    /// above the second. The triangle is read only where the plane has no coefficients.
    pub fn bounds(&self, t: &ScreenTri, x: u32, y: u32, pattern: Pattern) -> (u32, u32)
        requires plane { self.now ≡ t.now }
        requires x_small { x < MAX_SIDE }
        requires y_small { y < MAX_SIDE }
        ensures rising { result.0 ≤ result.1 }
        ensures small { result.1 ≤ MAX_DEPTH }
        ensures low { IsMinKey self.now (offsets_of pattern) x y result.0 }
        ensures high { IsMaxKey self.now (offsets_of pattern) x y result.1 }
    {
        match self.coefficients {
            Some(coefficients) => {
                let spread = coefficients.spread(16 * pattern.reach());
                coefficients.bounds(sample_position((0, 0), x, y), spread)
            }
            None => depth_bounds(t, x, y, pattern),
        }
    }
}
