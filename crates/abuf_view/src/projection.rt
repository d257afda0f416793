// Primitives, all of them.
ghost use Rattle.std.specs.Prelude.{◌≡◌, ◌≤◌, length};
ghost use Rattle.abuf_num.specs.declared.limits.TheConstants.{MAX_PRIMITIVES};

use abuf_num::{List, Paint};
use abuf_raster::ScreenTri;

/// The primitives of a scene, and the paint of each: two lists of one length, at most 2097152. The index in the lists is the
/// primitive's number.
#[derive(Drop)]
pub struct Projected {
    /// Corners in 1/256 pixel, and depth values from 0 to 16777215, which is at the near plane.
    pub tris: List<ScreenTri>,
    pub paints: List<Paint>,
    pub ghost few: { length tris ≤ MAX_PRIMITIVES },
    pub ghost painted: { length paints ≡ length tris },
}
