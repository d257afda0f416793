// Points of the scene.
ghost use Rattle.std.specs.Prelude.{◌≡◌};
ghost use Rattle.abuf_obj.specs.Sound.{IsInRange};
ghost use Rattle.abuf_view.specs.Camera.{point_of, IsBounded};

/// A point of the scene, or a row of a matrix. Coordinates of points are in 1/65536.
#[derive(Clone, Copy, Debug, PartialEq, Eq)]
pub(crate) struct Point3 {
    pub(crate) x: i64,
    pub(crate) y: i64,
    pub(crate) z: i64,
}

impl Point3 {
    /// The point of these coordinates.
    pub(crate) fn of(parts: [i64; 3]) -> Point3
        ensures value { result ≡ point_of parts }
        ensures range { IsInRange parts → IsBounded result }
    {
        Point3 {
            x: parts[0],
            y: parts[1],
            z: parts[2],
        }
    }
}
