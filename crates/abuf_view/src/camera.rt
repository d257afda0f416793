// The camera.
ghost use Rattle.std.specs.Prelude.{◌≡◌, ◌∷◌, []};
ghost use Rattle.abuf_view.specs.Eye.{eye_of, IsEye};
ghost use Rattle.abuf_view.specs.Camera.{Camera as Viewpoint, camera, camera_of, IsCamera};

use crate::eye::{Eye, times};
use crate::near_plane::NearPlane;
use crate::point::Point3;
use crate::quaternion::Quaternion;
use crate::screen::Screen;
use std::marker::Model;

/// A focal length and a near distance, in 1/65536.
#[derive(Clone, Copy, Debug, PartialEq, Eq)]
pub struct Lens {
    pub focal: i64,
    pub near: i64,
}

/// A camera: the size of its image, where it stands and looks, its focal length and its near distance. A point of the scene is
/// turned by a quaternion, then shifted, and is then seen from the origin along -z.
#[derive(Clone, Copy)]
pub struct Camera {
    width: u32,
    height: u32,
    turn: Quaternion,
    shift: Point3,
    lens: Lens,
}

impl Model for Camera {
    ghost Value = { Viewpoint };

    ghost view = { λ k. camera_of k.width k.height k.turn k.shift k.lens.focal k.lens.near };

    ghost invariant = { λ k. IsCamera (camera_of k.width k.height k.turn k.shift k.lens.focal k.lens.near) };

    ghost inverse = { λ k. record { width = k.width; height = k.height; turn = k.turn; shift = k.shift; lens = record { focal = k.focal; near = k.near } } };
}

impl Camera {
    /// The camera of these numbers, for callers who know that they are within its bounds, which [`new`](Camera::new) names and
    /// checks. Nothing is checked here. The focal length and the near distance are those of the lens.
    pub fn new_unchecked(
        width: u32,
        height: u32,
        turn: [i32; 4],
        shift: [i64; 3],
        lens: Lens,
    ) -> Camera
        requires bounds { IsCamera (camera width height turn shift lens.focal lens.near) }
        ensures { result ≡ camera width height turn shift lens.focal lens.near }
    {
        Camera {
            width,
            height,
            turn: Quaternion::of(turn),
            shift: Point3::of(shift),
            lens,
        }
    }

    /// The width of the camera's image, in pixels.
    pub fn width(&self) -> u32
        ensures { result ≡ self.now.width }
    {
        self.width
    }

    /// The height of the camera's image, in pixels.
    pub fn height(&self) -> u32
        ensures { result ≡ self.now.height }
    {
        self.height
    }

    /// The four components of the camera's turn, a quaternion.
    pub fn turn(&self) -> [i32; 4]
        ensures { result ≡ self.now.turn.a ∷ self.now.turn.b ∷ self.now.turn.c ∷ self.now.turn.d ∷ [] }
    {
        [self.turn.a, self.turn.b, self.turn.c, self.turn.d]
    }

    /// The three parts of the camera's shift, in units of 1/65536.
    pub fn shift(&self) -> [i64; 3]
        ensures { result ≡ self.now.shift.x ∷ self.now.shift.y ∷ self.now.shift.z ∷ [] }
    {
        [self.shift.x, self.shift.y, self.shift.z]
    }

    /// The focal length of the camera, in units of 1/65536.
    pub fn focal(&self) -> i64
        ensures { result ≡ self.now.focal }
    {
        self.lens.focal
    }

    /// The near distance of the camera, in units of 1/65536.
    pub fn near(&self) -> i64
        ensures { result ≡ self.now.near }
    {
        self.lens.near
    }

    /// The change to eye space.
    pub(crate) fn eye(&self) -> Eye
        ensures value { result ≡ eye_of self.now }
        ensures sound { IsEye result }
    {
        let norm = self.turn.norm();
        let plane = times(norm, self.lens.near);
        Eye {
            x: self.turn.row_x(),
            y: self.turn.row_y(),
            z: self.turn.row_z(),
            shift: self.shift,
            near_plane: NearPlane { norm, w: plane },
            screen: Screen {
                width: self.width,
                height: self.height,
                focal: self.lens.focal,
            },
        }
    }
}
