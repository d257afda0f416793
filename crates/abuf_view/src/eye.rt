// The change to eye space.
ghost use Rattle.std.specs.Prelude.{◌≡◌, ◌+◌, ◌*◌, ◌^◌, ◌<◌, ◌≤◌, ℤ, pos, ◌+ℤ◌, ◌-ℤ◌, ◌*ℤ◌, ◌<ℤ◌, ◌≤ℤ◌, unsigned_abs};
ghost use Rattle.abuf_view.specs.Camera.{dot, IsBounded};
ghost use Rattle.abuf_view.specs.NearPlane.{IsNearPlane, IsEyePoint};
ghost use Rattle.abuf_view.specs.Eye.{eye_point_by, IsEye, IsRow};
ghost use Rattle.abuf_num.specs.declared.limits.TheConstants.{MAX_COORDINATE};

use crate::near_plane::NearPlane;
use crate::point::Point3;
use crate::screen::Screen;

/// A point in eye space, as the camera sees it, in units of 1/65536 times the norm of the camera's turn: x to the right, y upward,
/// and w the distance in front of the camera. Each is below 2^55 either way.
#[derive(Clone, Copy, Debug, PartialEq, Eq)]
pub struct EyePoint {
    pub x: i64,
    pub y: i64,
    pub w: i64,
}

/// The change to eye space, computed once of a camera: the rows of its matrix and its shift. With it go the near plane and the
/// screen.
#[derive(Clone, Copy)]
pub(crate) struct Eye {
    pub(crate) x: Point3,
    pub(crate) y: Point3,
    pub(crate) z: Point3,
    pub(crate) shift: Point3,
    pub(crate) near_plane: NearPlane,
    pub(crate) screen: Screen,
}

/// A product of an entry of the matrix and a coordinate of a point.
pub(crate) fn times(entry: i64, part: i64) -> i64
    requires entry { unsigned_abs entry ≤ 2 ^ 22 }
    requires part { unsigned_abs part ≤ MAX_COORDINATE }
    ensures value { result ≡ entry *ℤ part }
    ensures bound { unsigned_abs result ≤ unsigned_abs entry * MAX_COORDINATE }
{
    entry * part
}

/// A sum of two numbers that are below 2^62 either way, which 64 bits always hold.
pub(crate) fn sum(a: i64, b: i64) -> i64
    requires a { unsigned_abs a < 2 ^ 62 }
    requires b { unsigned_abs b < 2 ^ 62 }
    ensures value { result ≡ a +ℤ b }
    ensures bound { unsigned_abs result ≤ unsigned_abs a + unsigned_abs b }
{
    a + b
}

/// One coordinate of a point in eye space, but for its sign: by a row of the matrix, the norm and one coordinate of the shift.
fn eye_coordinate(row: Point3, norm: i64, p: Point3, shift: i64) -> i64
    requires norm { unsigned_abs norm ≤ 4194304 }
    requires row { IsRow norm row }
    requires p { IsBounded p }
    requires shift { unsigned_abs shift ≤ MAX_COORDINATE }
    ensures value { result ≡ dot row p +ℤ norm *ℤ shift }
    ensures bound { unsigned_abs result ≤ unsigned_abs norm * 8589934588 }
    ensures small { unsigned_abs result < 2 ^ 55 }
{
    let first = times(row.x, p.x);
    let second = times(row.y, p.y);
    let third = times(row.z, p.z);
    let fourth = times(norm, shift);
    sum(sum(sum(first, second), third), fourth)
}

impl Eye {
    /// The point in eye space.
    pub(crate) fn sees(&self, p: Point3) -> EyePoint
        requires eye { IsEye self.now }
        requires range { IsBounded p }
        ensures value { result ≡ eye_point_by self.now p }
        ensures bounded { IsEyePoint self.now.near_plane.norm result }
    {
        let norm = self.near_plane.norm;
        let x = eye_coordinate(self.x, norm, p, self.shift.x);
        let y = eye_coordinate(self.y, norm, p, self.shift.y);
        let z = eye_coordinate(self.z, norm, p, self.shift.z);
        EyePoint { x, y, w: -z }
    }
}
