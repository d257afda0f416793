// Points on the screen in short numbers.
ghost use Rattle.std.specs.Prelude.{◌≡◌, IfSome};
ghost use Rattle.abuf_obj.specs.Sound.{IsInRange};
ghost use Rattle.abuf_view.specs.Eye.{IsEye};
ghost use Rattle.abuf_view.specs.ShortPoints.{short, short_of, short_point, joined};

use crate::eye::Eye;
use crate::point::Point3;
use crate::screen::corner;
use abuf_raster::ScreenTri;

/// A point on the screen: its position in 1/256 pixel, each coordinate below 2^31 either way, and its depth value.
#[derive(Clone, Copy)]
pub(crate) struct ShortPoint {
    pub(crate) x: i32,
    pub(crate) y: i32,
    pub(crate) depth: u32,
}

/// The number, where it is short.
#[tactic(auto, unfolding(crate::specs::ShortPoints::short))]
fn short(z: i64) -> Option<i32>
    ensures { result ≡ short z }
{
    if z.unsigned_abs() < 2147483648 {
        Some(z as i32)
    } else {
        None
    }
}

/// The point of these coordinates, where both are short.
fn short_of(x: Option<i32>, y: Option<i32>, depth: u32) -> Option<ShortPoint>
    ensures { result ≡ short_of x y depth }
{
    match (x, y) {
        (Some(x), Some(y)) => Some(ShortPoint { x, y, depth }),
        _ => None,
    }
}

/// Where the eye sees a point of the scene. Returns `None` if the point is behind the near plane, or so far beside the screen that
/// its coordinates aren't short.
pub(crate) fn short_point(eye: &Eye, point: [i64; 3]) -> Option<ShortPoint>
    requires eye { IsEye eye.now }
    requires point { IsInRange point }
    ensures { result ≡ short_point eye.now point }
{
    let seen = eye.sees(Point3::of(point));
    if eye.near_plane.is_inside(seen) {
        let corner = corner(eye.screen, eye.near_plane, seen);
        short_of(
            short(corner.position.x),
            short(corner.position.y),
            corner.depth,
        )
    } else {
        None
    }
}

/// The triangle of three points.
pub(crate) fn joined(a: ShortPoint, b: ShortPoint, c: ShortPoint) -> Option<ScreenTri>
    ensures { IfSome result (λ t. t ≡ joined a b c) }
{
    ScreenTri::new(
        [a.x as i64, b.x as i64, c.x as i64],
        [a.y as i64, b.y as i64, c.y as i64],
        [a.depth, b.depth, c.depth],
    )
}
