// The box of pixels around a triangle.
ghost use Rattle.std.specs.Prelude.{◌≡◌, ℕ, ◌+◌, ◌*◌, ◌^◌, ◌<◌, ◌≤◌, pos, ◌+ℤ◌, ◌-ℤ◌, ◌≤ℤ◌, ◌<ℤ◌, unsigned_abs, max, IsTrue, ◌↔◌, ◌⊎◌, false};
ghost use Rattle.abuf_num.specs.declared.limits.TheConstants.{MAX_SIDE};
ghost use Rattle.abuf_raster.specs.Samples.{offsets_of};
ghost use Rattle.abuf_raster.specs.Coverage.{mask};
ghost use Rattle.abuf_raster.specs.BoundingBox.{IsBefore, IsBehind, IsBoxOf, CoversNone};

use crate::pattern::Pattern;
use crate::region::Region;
use crate::triangle::ScreenTri;

/// The pixels from column `left` to the one before column `right`, in the rows from `top` to the one before `bottom`.
#[derive(Clone, Copy)]
pub(crate) struct BoundingBox {
    pub(crate) left: u32,
    pub(crate) right: u32,
    pub(crate) top: u32,
    pub(crate) bottom: u32,
}

/// The number of the pixel that holds this coordinate, held from `start` to `end`.
fn pixel_of(z: i64, start: u32, end: u32) -> u32
    requires z_small { unsigned_abs z < 2 ^ 46 }
    requires order { start ≤ end }
    requires end_small { end ≤ MAX_SIDE }
    ensures low { start ≤ result }
    ensures high { result ≤ end }
    ensures before { (p : ℕ) → start ≤ p → p < result → pos (256 * p + 256) ≤ℤ z }
    ensures behind { (p : ℕ) → result ≤ p → p < end → z <ℤ pos (256 * p + 256) }
{
    if z < 256 * start as i64 {
        start
    } else if z < 256 * end as i64 {
        (z / 256) as u32
    } else {
        end
    }
}

/// The least of three coordinates.
fn min_of(x: i64, y: i64, z: i64) -> i64
    ensures x { result ≤ℤ x }
    ensures y { result ≤ℤ y }
    ensures z { result ≤ℤ z }
    ensures bound { unsigned_abs result ≤ max (unsigned_abs x) (max (unsigned_abs y) (unsigned_abs z)) }
{
    let min_of = if y < x { y } else { x };
    if z < min_of { z } else { min_of }
}

/// The greatest of three coordinates.
fn max_of(x: i64, y: i64, z: i64) -> i64
    ensures x { x ≤ℤ result }
    ensures y { y ≤ℤ result }
    ensures z { z ≤ℤ result }
    ensures bound { unsigned_abs result ≤ max (unsigned_abs x) (max (unsigned_abs y) (unsigned_abs z)) }
{
    let max_of = if x < y { y } else { x };
    if max_of < z { z } else { max_of }
}

/// The coordinate from which the pixel is told that begins with a margin before it.
fn lowered(z: i64, margin: u32) -> i64
    requires z_small { unsigned_abs z < 2 ^ 45 }
    requires margin_small { margin ≤ 128 }
    ensures value { result ≡ z +ℤ pos 127 -ℤ pos margin }
    ensures small { unsigned_abs result < 2 ^ 46 }
{
    z + 127 - margin as i64
}

/// The coordinate from which the pixel is told that ends with a margin behind it.
fn raised(z: i64, margin: u32) -> i64
    requires z_small { unsigned_abs z < 2 ^ 45 }
    requires margin_small { margin ≤ 128 }
    ensures value { result ≡ z +ℤ pos 128 +ℤ pos margin }
    ensures small { unsigned_abs result < 2 ^ 46 }
{
    z + 128 + margin as i64
}

/// The first pixel from `start` on, along one direction, that is not before a triangle with these coordinates.
fn first_pixel(x: i64, y: i64, z: i64, margin: u32, start: u32, end: u32) -> u32
    requires x_small { unsigned_abs x < 2 ^ 45 }
    requires y_small { unsigned_abs y < 2 ^ 45 }
    requires z_small { unsigned_abs z < 2 ^ 45 }
    requires margin_small { margin ≤ 128 }
    requires order { start ≤ end }
    requires end_small { end ≤ MAX_SIDE }
    ensures low { start ≤ result }
    ensures high { result ≤ end }
    ensures before { (p : ℕ) → start ≤ p → p < result → IsBefore p margin x × IsBefore p margin y × IsBefore p margin z }
{
    pixel_of(lowered(min_of(x, y, z), margin), start, end)
}

/// The first pixel from `start` on, along one direction, that is behind a triangle with these coordinates.
fn end_pixel(x: i64, y: i64, z: i64, margin: u32, start: u32, end: u32) -> u32
    requires x_small { unsigned_abs x < 2 ^ 45 }
    requires y_small { unsigned_abs y < 2 ^ 45 }
    requires z_small { unsigned_abs z < 2 ^ 45 }
    requires margin_small { margin ≤ 128 }
    requires order { start ≤ end }
    requires end_small { end ≤ MAX_SIDE }
    ensures low { start ≤ result }
    ensures high { result ≤ end }
    ensures behind { (p : ℕ) → result ≤ p → p < end → IsBehind p margin x × IsBehind p margin y × IsBehind p margin z }
{
    pixel_of(raised(max_of(x, y, z), margin), start, end)
}

impl BoundingBox {
    /// The box around a triangle within the region: outside of it the triangle covers no sample of the region.
    #[inline(always)]
    pub(crate) fn of(t: &ScreenTri, region: Region, pattern: Pattern) -> BoundingBox
        ensures { IsBoxOf t.now (offsets_of pattern) region result }
    {
        let margin = 16 * pattern.reach();
        let x0 = region.x0();
        let y0 = region.y0();
        let end_x = x0 + region.w();
        let end_y = y0 + region.h();
        let left = first_pixel(t.a.x, t.b.x, t.c.x, margin, x0, end_x);
        let right = end_pixel(t.a.x, t.b.x, t.c.x, margin, x0, end_x);
        let top = first_pixel(t.a.y, t.b.y, t.c.y, margin, y0, end_y);
        let bottom = end_pixel(t.a.y, t.b.y, t.c.y, margin, y0, end_y);
        BoundingBox {
            left,
            right: right.max(left),
            top,
            bottom: bottom.max(top),
        }
    }

    /// The box has no pixel.
    #[inline(always)]
    pub(crate) fn is_empty(self) -> bool
        ensures { IsTrue result ↔ ((self.left ≡ self.right) ⊎ (self.top ≡ self.bottom)) }
    {
        self.left == self.right || self.top == self.bottom
    }
}

/// All rows of the region lie before the triangle, or behind it.
#[inline(always)]
fn rows_miss(t: &ScreenTri, region: Region, pattern: Pattern) -> bool
    ensures { IsTrue result → CoversNone t.now (offsets_of pattern) region }
{
    let margin = 16 * pattern.reach();
    let top = lowered(min_of(t.a.y, t.b.y, t.c.y), margin);
    let bottom = raised(max_of(t.a.y, t.b.y, t.c.y), margin);
    let end = region.y0() + region.h();
    256 * end as i64 <= top || bottom < 256 * (region.y0() + 1) as i64
}

/// Whether the box around the triangle has a pixel of the region.
#[inline(never)]
fn box_meets(t: &ScreenTri, region: Region, pattern: Pattern) -> bool
    ensures { result ≡ false → CoversNone t.now (offsets_of pattern) region }
{
    !BoundingBox::of(t, region, pattern).is_empty()
}

/// Whether the box around the triangle has a pixel of the region. If it has none, the triangle covers no sample there. Asking this
/// is much faster than a walk that finds nothing, and takes next to no time if the rows alone tell it.
#[inline(always)]
pub fn meets(t: &ScreenTri, region: Region, pattern: Pattern) -> bool
    ensures { result ≡ false → CoversNone t.now (offsets_of pattern) region }
{
    if rows_miss(t, region, pattern) {
        return false;
    }
    box_meets(t, region, pattern)
}

/// The first column and the first row of the region in which the triangle may cover a sample, by the box around it, or those behind
/// the last. They take next to nothing.
#[inline(always)]
pub fn upper_left(t: &ScreenTri, region: Region, pattern: Pattern) -> (u32, u32)
    ensures column { (region.x0 ≤ result.0) × (result.0 ≤ region.x0 + region.w) }
    ensures row { (region.y0 ≤ result.1) × (result.1 ≤ region.y0 + region.h) }
    ensures left { (x y : ℕ) → region.x0 ≤ x → x < result.0 → mask t.now (offsets_of pattern) x y ≡ 0 }
    ensures above { (x y : ℕ) → region.y0 ≤ y → y < result.1 → mask t.now (offsets_of pattern) x y ≡ 0 }
{
    let bounds = BoundingBox::of(t, region, pattern);
    (bounds.left, bounds.top)
}
