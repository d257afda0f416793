// Calls for users of the crate, which the program doesn't use.
// A camera of any numbers: the program knows of its own that they are within the bounds.
ghost use Rattle.std.specs.Prelude.{◌≤◌, ◌↔◌, unsigned_abs, IsTrue};
ghost use Rattle.abuf_num.specs.declared.limits.TheConstants.{MAX_COORDINATE};
ghost use Rattle.abuf_view.specs.Camera.{camera, camera_of, IsMade, IsCamera, IsSize, IsTurn, IsBounded, IsFrom, IsLens};

use crate::camera::{Camera, Lens};
use crate::point::Point3;
use crate::quaternion::Quaternion;
use abuf_num::limits::{MAX_COORDINATE, MAX_PIXELS, MAX_SIDE};

fn is_size(width: u32, height: u32) -> bool
    ensures { IsTrue result ↔ IsSize width height }
{
    1 <= width
        && width <= MAX_SIDE
        && 1 <= height
        && height <= MAX_SIDE
        && width * height <= MAX_PIXELS
}

fn is_component(part: i32) -> bool
    ensures { IsTrue result ↔ (unsigned_abs part ≤ 1024) }
{
    -1024 <= part && part <= 1024
}

fn is_turn(turn: Quaternion) -> bool
    ensures { IsTrue result ↔ IsTurn turn }
{
    is_component(turn.a)
        && is_component(turn.b)
        && is_component(turn.c)
        && is_component(turn.d)
        && !(turn.a == 0 && turn.b == 0 && turn.c == 0 && turn.d == 0)
}

fn is_coordinate(part: i64) -> bool
    ensures { IsTrue result ↔ (unsigned_abs part ≤ MAX_COORDINATE) }
{
    part.unsigned_abs() <= MAX_COORDINATE
}

fn is_bounded(point: Point3) -> bool
    ensures { IsTrue result ↔ IsBounded point }
{
    is_coordinate(point.x) && is_coordinate(point.y) && is_coordinate(point.z)
}

fn is_from(low: i64, high: i64, length: i64) -> bool
    ensures { IsTrue result ↔ IsFrom low high length }
{
    low <= length && length <= high
}

fn is_lens(lens: Lens) -> bool
    ensures { IsTrue result ↔ IsLens lens.focal lens.near }
{
    is_from(1, 1048576, lens.focal) && is_from(4096, 2147483647, lens.near)
}

fn is_camera(width: u32, height: u32, turn: Quaternion, shift: Point3, lens: Lens) -> bool
    ensures { IsTrue result ↔ IsCamera (camera_of width height turn shift lens.focal lens.near) }
{
    is_size(width, height) && is_turn(turn) && is_bounded(shift) && is_lens(lens)
}

impl Camera {
    /// The camera of these numbers, or none where they are past its bounds.
    ///
    /// The width and height are from 1 to 4096 pixels, and their product is at most 4194304. Each component of the turn is from -1024
    /// to 1024, and not all are 0; the quaternion need not have length 1. The coordinates of the shift are at most 2147483647 either way,
    /// the focal length is from 1 to 1048576, and the near distance from 4096 to 2147483647, in units of 1/65536.
    pub fn new(
        width: u32,
        height: u32,
        turn: [i32; 4],
        shift: [i64; 3],
        focal: i64,
        near: i64,
    ) -> Option<Camera>
        ensures { IsMade result (camera width height turn shift focal near) }
    {
        let lens = Lens { focal, near };
        if is_camera(width, height, Quaternion::of(turn), Point3::of(shift), lens) {
            Some(Camera::new_unchecked(width, height, turn, shift, lens))
        } else {
            None
        }
    }
}
