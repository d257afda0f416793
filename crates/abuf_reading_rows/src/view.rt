// Triangles before a camera, and the camera's bounds.
ghost use Rattle.std.specs.Prelude.{◌≤◌, unsigned_abs};
ghost use Rattle.abuf_obj.specs.Sound.{IsInRange};

use abuf_num::{List, NoMemory, Paint};
use abuf_raster::{Pattern, Region, ScreenTri, TileWalk, depth_at, mask_at};
use abuf_scene::{Scene, Triangle};
use abuf_view::{Camera, Projected, project};
use std::alloc::Global;
use std::test::Fail;

pub(crate) const WHITE: Paint = Paint {
    colour: [65535; 3],
    alpha: 65535,
};

/// A point, in units of 1/65536.
fn point(x: i64, y: i64, z: i64) -> [i64; 3]
    requires x { unsigned_abs x ≤ 2147483647 }
    requires y { unsigned_abs y ≤ 2147483647 }
    requires z { unsigned_abs z ≤ 2147483647 }
    ensures { IsInRange result }
{
    [x, y, z]
}

/// What a camera sees of one white triangle.
fn shown_by(
    alloc: Global,
    camera: &Camera,
    a: [i64; 3],
    b: [i64; 3],
    c: [i64; 3],
) -> Result<Projected, NoMemory>
    requires a { IsInRange a }
    requires b { IsInRange b }
    requires c { IsInRange c }
{
    let mut triangles = List::new(alloc);
    triangles.push(Triangle {
        a,
        b,
        c,
        paint: WHITE,
    })?;
    let scene = Scene { triangles };
    project(alloc, &scene, camera)
}

/// How many primitives cover the centre of the pixel.
pub(crate) fn covering(tris: &[ScreenTri], x: u32, y: u32) -> u32
    requires x { x ≤ 4095 }
    requires y { y ≤ 4095 }
{
    let mut count: u32 = 0;
    for triangle in tris {
        count = count.saturating_add(u32::from(mask_at(triangle, x, y, Pattern::One)));
    }
    count
}

/// How many pixels of the region the first primitive covers with this depth key.
pub(crate) fn pixels_at(projected: &Projected, region: Region, depth: u32) -> u32 {
    let mut count: u32 = 0;
    if let Some(triangle) = projected.tris.as_slice().first() {
        for hit in TileWalk::new(triangle, 0, region, Pattern::One) {
            let covered = mask_at(triangle, hit.x, hit.y, Pattern::One) == 1;
            if covered && depth_at(triangle, hit.x, hit.y, Pattern::One, 0) == depth {
                count = count.saturating_add(1);
            }
        }
    }
    count
}

/// The camera at z = 4 that looks along -z, with an image of 4 by 4 pixels.
pub(crate) fn front() -> Option<Camera> {
    Camera::new(4, 4, [1, 0, 0, 0], [0, 0, -262144], 65536, 8192)
}

pub(crate) fn four_by_four() -> Region {
    Region::whole_image(4, 4)
}

/// The corners are (0, 0), (1024, 0) and (0, 1024) on the screen, so that the diagonal runs through centres and is a right
/// edge.
#[test]
fn upper_left_half_is_covered(rt: HostRuntime) -> Result<(), Fail> {
    let camera = front().ok_or("camera")?;
    let a = point(-262144, 262144, 0);
    let b = point(262144, 262144, 0);
    let c = point(-262144, -262144, 0);
    let projected = shown_by(rt.alloc(), &camera, a, b, c)?;
    assert!(rt; projected.tris.as_slice().len() == 1);
    assert!(rt; projected.paints.as_slice() == [WHITE].as_slice());
    for x in 0..4 {
        for y in 0..4 {
            assert!(rt; (covering(projected.tris.as_slice(), x, y) == 1) == (x + y < 3));
        }
    }
    assert!(rt; pixels_at(&projected, four_by_four(), 524287) == 6);
    Ok(())
}

/// The third corner is behind the camera: the two parts cover the two upper rows, each pixel once.
#[test]
fn corner_behind_the_camera_is_cut_off(rt: HostRuntime) -> Result<(), Fail> {
    let camera = front().ok_or("camera")?;
    let a = point(-65536, 0, 196608);
    let b = point(65536, 0, 196608);
    let c = point(0, 65536, 327680);
    let projected = shown_by(rt.alloc(), &camera, a, b, c)?;
    assert!(rt; projected.tris.as_slice().len() == 2);
    assert!(rt; projected.paints.as_slice() == [WHITE, WHITE].as_slice());
    for x in 0..4 {
        for y in 0..4 {
            assert!(rt; (covering(projected.tris.as_slice(), x, y) == 1) == (y < 2));
        }
    }
    Ok(())
}

/// Two corners are behind the camera: one part is left, with its tip in the middle of the image.
#[test]
fn corner_alone_before_the_camera_is_kept(rt: HostRuntime) -> Result<(), Fail> {
    let camera = front().ok_or("camera")?;
    let a = point(0, 0, 196608);
    let b = point(-65536, 65536, 327680);
    let c = point(65536, 65536, 327680);
    let projected = shown_by(rt.alloc(), &camera, a, b, c)?;
    assert!(rt; projected.tris.as_slice().len() == 1);
    for x in 0..4 {
        for y in 0..4 {
            let inside = (y == 0 && x < 3) || (y == 1 && x == 1);
            assert!(rt; (covering(projected.tris.as_slice(), x, y) == 1) == inside);
        }
    }
    Ok(())
}

/// All corners lie on the near plane, and far off the screen: one at X = 4397912293504.
#[test]
fn far_corners_on_the_near_plane(rt: HostRuntime) -> Result<(), Fail> {
    let camera = Camera::new(1, 4096, [1, 0, 0, 0], [0, 0, -262144], 1048576, 4096).ok_or(
        "camera",
    )?;
    let a = point(-2147418112, -2147418112, 258048);
    let b = point(2147418112, -2147418112, 258048);
    let c = point(0, 2147418112, 258048);
    let projected = shown_by(rt.alloc(), &camera, a, b, c)?;
    let column = Region::whole_image(1, 4096);
    assert!(rt; pixels_at(&projected, column, 16777215) == 4096);
    Ok(())
}

/// Shifted as far ahead as can be, a triangle is a point on the screen. As far behind, nothing of it is left.
#[test]
fn farthest_shifts(rt: HostRuntime) -> Result<(), Fail> {
    let a = point(-262144, 262144, 0);
    let b = point(262144, 262144, 0);
    let c = point(-262144, -262144, 0);
    for (z, parts) in [(-2147483647, 1), (2147483647, 0)] {
        let camera = Camera::new(4, 4, [1, 0, 0, 0], [0, 0, z], 65536, 8192).ok_or("camera")?;
        let projected = shown_by(rt.alloc(), &camera, a, b, c)?;
        assert!(rt; projected.tris.as_slice().len() == parts);
        for x in 0..4 {
            for y in 0..4 {
                assert!(rt; covering(projected.tris.as_slice(), x, y) == 0);
            }
        }
    }
    Ok(())
}

const TURN: [i32; 4] = [1, 0, 0, 0];

const STILL: [i64; 3] = [0, 0, 0];

/// Width, height, turn, shift, focal length and near distance, and whether there is such a camera.
#[test]
fn cameras_at_their_bounds_and_past_them(rt: HostRuntime) {
    for (width, height, turn, shift, focal, near, made) in [
        (1, 1, [0, 0, 0, 1], STILL, 1, 4096, true),
        (
            4096,
            1024,
            [-1024, 1024, 0, 0],
            STILL,
            1048576,
            2147483647,
            true,
        ),
        (
            1024,
            4096,
            TURN,
            [-2147483647, 2147483647, 0],
            1,
            4096,
            true,
        ),
        (0, 1, TURN, STILL, 1, 4096, false),
        (1, 0, TURN, STILL, 1, 4096, false),
        (4097, 1, TURN, STILL, 1, 4096, false),
        (1, 4097, TURN, STILL, 1, 4096, false),
        (4096, 1025, TURN, STILL, 1, 4096, false),
        (1, 1, [0, 0, 0, 0], STILL, 1, 4096, false),
        (1, 1, [1025, 0, 0, 0], STILL, 1, 4096, false),
        (1, 1, [0, 0, -1025, 0], STILL, 1, 4096, false),
        (1, 1, TURN, [0, 2147483648, 0], 1, 4096, false),
        (1, 1, TURN, [0, 0, -2147483648], 1, 4096, false),
        (1, 1, TURN, STILL, 0, 4096, false),
        (1, 1, TURN, STILL, 1048577, 4096, false),
        (1, 1, TURN, STILL, 1, 4095, false),
        (1, 1, TURN, STILL, 1, 2147483648, false),
    ] {
        assert!(rt; Camera::new(width, height, turn, shift, focal, near).is_some() == made);
    }
}

#[test]
fn a_camera_tells_what_it_was_made_of(rt: HostRuntime) -> Result<(), Fail> {
    let camera = Camera::new(4, 3, [1, -2, 1024, 0], [5, -6, 2147483647], 65536, 8192).ok_or(
        "camera",
    )?;
    assert_eq!(rt; camera.width(), 4);
    assert_eq!(rt; camera.height(), 3);
    assert!(rt; camera.turn() == [1, -2, 1024, 0]);
    assert!(rt; camera.shift() == [5, -6, 2147483647]);
    assert_eq!(rt; camera.focal(), 65536);
    assert_eq!(rt; camera.near(), 8192);
    Ok(())
}
