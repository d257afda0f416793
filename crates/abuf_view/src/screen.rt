// The screen.
ghost use Rattle.std.specs.Prelude.{◌≡◌, ◌*◌, ◌^◌, ◌<◌, ◌≤◌, ℤ, pos, ◌+ℤ◌, ◌-ℤ◌, ◌*ℤ◌, ◌<ℤ◌, ◌≤ℤ◌, unsigned_abs, IfSome};
ghost use Rattle.abuf_num.specs.declared.limits.TheConstants.{MAX_DEPTH, MAX_SIDE};
ghost use Rattle.abuf_num.specs.Division.{floor_div, round_div, nearest};
ghost use Rattle.abuf_raster.specs.Triangle.{IsWithin};
ghost use Rattle.abuf_view.specs.NearPlane.{IsNearPlane, IsEyePoint, IsInFront};
ghost use Rattle.abuf_view.specs.Screen.{screen_position, depth_value, on_screen, signed_by};

use crate::eye::EyePoint;
use crate::near_plane::{EyeTriangle, NearPlane};
use abuf_num::limits::MAX_DEPTH;
use abuf_num::{Reciprocal, floor_div, product, round_div};
use abuf_raster::{Point, ScreenTri};

/// The size below which half of the divisor can be added to it.
const SHORT_SIZE: u64 = 4611686018427387904;

/// The w below which half of 512 times it is below the greatest size.
const SHORT_W: u64 = 18014398509481984;

/// The near plane's w below which 63 bits hold 16777215 times it.
const SHORT_PLANE: u64 = 549755813888;

/// 128 times the height, the focal length and the distance from the middle.
fn wide_size(height: u32, focal: i64, x: i64) -> i128
    requires height { height ≤ MAX_SIDE }
    requires focal { (pos 0 ≤ℤ focal) × (focal ≤ℤ pos 1048576) }
    requires x { unsigned_abs x < 2 ^ 55 }
    ensures value { result ≡ pos (128 * height) *ℤ focal *ℤ x }
    ensures bound { unsigned_abs result < 2 ^ 95 }
{
    let scale = (128 * height) as i64 * focal;
    product(scale, x)
}

/// `screen_coordinate` in 128 bits.
fn wide_coordinate(height: u32, focal: i64, x: i64, w: i64) -> i64
    requires height { height ≤ MAX_SIDE }
    requires focal { (pos 0 ≤ℤ focal) × (focal ≤ℤ pos 1048576) }
    requires x { unsigned_abs x < 2 ^ 55 }
    requires w { pos 0 <ℤ w }
    requires steep { unsigned_abs x * 4096 ≤ unsigned_abs w * 8589934588 }
    ensures value { result ≡ round_div (pos (128 * height) *ℤ focal *ℤ x) (pos 65536 *ℤ w) }
    ensures bound { unsigned_abs result ≤ 2 ^ 44 }
{
    round_div(wide_size(height, focal, x), product(65536, w)) as i64
}

/// The height times the focal length and the distance from the middle, where it is short.
fn size_of(height: u32, focal: i64, x: i64) -> Option<u64>
    requires height { height ≤ MAX_SIDE }
    requires focal { unsigned_abs focal ≤ 1048576 }
    requires x { unsigned_abs x < 2 ^ 55 }
    ensures value { IfSome result (λ size. size ≡ height * unsigned_abs focal * unsigned_abs x) }
    ensures small { IfSome result (λ size. size < 2 ^ 62) }
{
    let scale = height as u64 * focal.unsigned_abs();
    let size = scale as u128 * x.unsigned_abs() as u128;
    if size < SHORT_SIZE as u128 {
        Some(size as u64)
    } else {
        None
    }
}

/// 128 times the size over 65536 times w, to the nearest: with the common factor 128 left out, (size + 256 w) / (512 w).
fn nearest_coordinate(size: u64, w: Reciprocal) -> u64
    requires size { size < 2 ^ 62 }
    requires small { w.divisor < 2 ^ 54 }
    ensures value { result ≡ nearest (128 * size) (65536 * w.divisor) }
    ensures bound { result < 2 ^ 62 }
{
    w.quotient((size + 256 * w.divisor) / 512)
}

/// The size with the sign of x.
fn with_sign(x: i64, size: u64) -> i64
    requires { size < 2 ^ 62 }
    ensures { result ≡ signed_by x size }
{
    if x < 0 { -(size as i64) } else { size as i64 }
}

/// How far a point is from the middle of the screen. It takes the reciprocal of w.
fn screen_coordinate(height: u32, focal: i64, x: i64, w: i64, reciprocal: Reciprocal) -> i64
    requires height { height ≤ MAX_SIDE }
    requires focal { (pos 0 ≤ℤ focal) × (focal ≤ℤ pos 1048576) }
    requires x { unsigned_abs x < 2 ^ 55 }
    requires w { pos 0 <ℤ w }
    requires steep { unsigned_abs x * 4096 ≤ unsigned_abs w * 8589934588 }
    requires reciprocal { reciprocal.divisor ≡ unsigned_abs w }
    ensures value { result ≡ round_div (pos (128 * height) *ℤ focal *ℤ x) (pos 65536 *ℤ w) }
    ensures bound { unsigned_abs result ≤ 2 ^ 44 }
{
    match size_of(height, focal, x) {
        Some(size) if reciprocal.divisor < SHORT_W => {
            with_sign(x, nearest_coordinate(size, reciprocal))
        }
        _ => wide_coordinate(height, focal, x, w),
    }
}

/// A camera's screen.
#[derive(Clone, Copy)]
pub(crate) struct Screen {
    pub(crate) width: u32,
    pub(crate) height: u32,
    pub(crate) focal: i64,
}

/// Where a point of eye space is on the screen.
fn screen_position(
    screen: Screen,
    near_plane: NearPlane,
    s: EyePoint,
    reciprocal: Reciprocal,
) -> Point
    requires near_plane { IsNearPlane near_plane.norm near_plane.w }
    requires width { screen.width ≤ MAX_SIDE }
    requires height { screen.height ≤ MAX_SIDE }
    requires focal { (pos 0 ≤ℤ screen.focal) × (screen.focal ≤ℤ pos 1048576) }
    requires bounded { IsEyePoint near_plane.norm s }
    requires inside { near_plane.w ≤ℤ s.w }
    requires reciprocal { reciprocal.divisor ≡ unsigned_abs s.w }
    ensures value { result ≡ screen_position screen.width screen.height screen.focal s }
    ensures range { IsWithin (2 ^ 45) result }
{
    Point {
        x: (128 * screen.width) as i64
            + screen_coordinate(screen.height, screen.focal, s.x, s.w, reciprocal),
        y: (128 * screen.height) as i64
            - screen_coordinate(screen.height, screen.focal, s.y, s.w, reciprocal),
    }
}

/// `depth_value` in 128 bits.
fn wide_depth(near_plane: NearPlane, s: EyePoint) -> u32
    requires near_plane { IsNearPlane near_plane.norm near_plane.w }
    requires inside { near_plane.w ≤ℤ s.w }
    ensures value { result ≡ depth_value near_plane.w s }
    ensures small { result ≤ MAX_DEPTH }
{
    floor_div(product(MAX_DEPTH as i64, near_plane.w), s.w as i128) as u32
}

/// The depth value of a point in front of the near plane. It takes the reciprocal of its w.
fn depth_value(near_plane: NearPlane, s: EyePoint, reciprocal: Reciprocal) -> u32
    requires near_plane { IsNearPlane near_plane.norm near_plane.w }
    requires inside { near_plane.w ≤ℤ s.w }
    requires reciprocal { reciprocal.divisor ≡ unsigned_abs s.w }
    ensures value { result ≡ depth_value near_plane.w s }
    ensures small { result ≤ MAX_DEPTH }
{
    if near_plane.w.unsigned_abs() < SHORT_PLANE {
        reciprocal.quotient(MAX_DEPTH as u64 * near_plane.w.unsigned_abs()) as u32
    } else {
        wide_depth(near_plane, s)
    }
}

/// A point on the screen, and its depth value.
#[derive(Clone, Copy)]
pub(crate) struct ScreenPoint {
    pub(crate) position: Point,
    pub(crate) depth: u32,
}

/// The point that the camera sees there. What is divided by its w takes one reciprocal.
pub(crate) fn corner(screen: Screen, near_plane: NearPlane, s: EyePoint) -> ScreenPoint
    requires near_plane { IsNearPlane near_plane.norm near_plane.w }
    requires width { screen.width ≤ MAX_SIDE }
    requires height { screen.height ≤ MAX_SIDE }
    requires focal { (pos 0 ≤ℤ screen.focal) × (screen.focal ≤ℤ pos 1048576) }
    requires bounded { IsEyePoint near_plane.norm s }
    requires inside { near_plane.w ≤ℤ s.w }
    ensures position { result.position ≡ screen_position screen.width screen.height screen.focal s }
    ensures range { IsWithin (2 ^ 45) result.position }
    ensures depth { result.depth ≡ depth_value near_plane.w s }
    ensures small { result.depth ≤ MAX_DEPTH }
{
    let reciprocal = Reciprocal::of(s.w.unsigned_abs());
    ScreenPoint {
        position: screen_position(screen, near_plane, s, reciprocal),
        depth: depth_value(near_plane, s, reciprocal),
    }
}

/// A triangle on the screen.
pub(crate) fn on_screen(screen: Screen, near_plane: NearPlane, t: EyeTriangle) -> ScreenTri
    requires near_plane { IsNearPlane near_plane.norm near_plane.w }
    requires width { screen.width ≤ MAX_SIDE }
    requires height { screen.height ≤ MAX_SIDE }
    requires focal { (pos 0 ≤ℤ screen.focal) × (screen.focal ≤ℤ pos 1048576) }
    requires in_front { IsInFront near_plane.norm near_plane.w t }
    ensures { result ≡ on_screen screen.width screen.height screen.focal near_plane.w t }
{
    let a = corner(screen, near_plane, t.a);
    let b = corner(screen, near_plane, t.b);
    let c = corner(screen, near_plane, t.c);
    ScreenTri::of_corners(
        a.position, b.position, c.position, a.depth, b.depth, c.depth,
    )
}
