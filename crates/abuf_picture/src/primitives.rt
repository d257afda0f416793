// What is drawn.
ghost use Rattle.std.specs.Prelude.{◌≡◌, ◌≤◌, length};
ghost use Rattle.abuf_num.specs.declared.limits.TheConstants.{MAX_PRIMITIVES};

use abuf_num::Paint;
use abuf_raster::ScreenTri;
use abuf_view::Projected;

/// Primitives: their triangles on the screen, and a paint for each. The index of a primitive in the lists is its number.
#[derive(Clone, Copy)]
pub struct Primitives<'a> {
    /// The triangles on the screen, at most 2097152.
    pub triangles: &'a [ScreenTri],
    /// The paint of each triangle.
    pub paints: &'a [Paint],
    pub ghost few: { length triangles.now ≤ MAX_PRIMITIVES },
    pub ghost painted: { length paints.now ≡ length triangles.now },
}

impl<'a> Primitives<'a> {
    /// The primitives of a scene that was projected to the screen.
    pub fn of(projected: &'a Projected) -> Primitives<'a>
        ensures triangles { result.triangles.now ≡ projected.now.tris }
        ensures paints { result.paints.now ≡ projected.now.paints }
    {
        Primitives {
            triangles: projected.tris.as_slice(),
            paints: projected.paints.as_slice(),
        }
    }
}
