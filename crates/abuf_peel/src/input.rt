// What is peeled.
ghost use Rattle.std.specs.Prelude.{◌≡◌, ◌≤◌, length};
ghost use Rattle.abuf_num.specs.declared.limits.TheConstants.{MAX_PRIMITIVES};
ghost use Rattle.abuf_raster.specs.Region.{IsImageSize};

pub(crate) mod members;
pub(crate) mod peeling;
pub(crate) mod rows;

use abuf_num::Paint;
use abuf_raster::{Pattern, ScreenTri};

/// The primitives of an image, a paint for each, where their samples lie, and what they are laid over.
#[derive(Clone, Copy)]
pub(crate) struct PeelInput<'a, 'b> {
    pub(crate) tris: &'a [ScreenTri],
    pub(crate) paints: &'b [Paint],
    pub(crate) width: u32,
    pub(crate) height: u32,
    pub(crate) pattern: Pattern,
    pub(crate) background: [u16; 3],
    pub(crate) ghost few: { length tris.now ≤ MAX_PRIMITIVES },
    pub(crate) ghost painted: { length paints.now ≡ length tris.now },
    pub(crate) ghost size: { IsImageSize width height },
}

/// Primitives, and a paint for each.
#[derive(Clone, Copy)]
pub(crate) struct PaintedTriangles<'a, 'b> {
    pub(crate) tris: &'a [ScreenTri],
    pub(crate) paints: &'b [Paint],
    pub(crate) ghost few: { length tris.now ≤ MAX_PRIMITIVES },
    pub(crate) ghost painted: { length paints.now ≡ length tris.now },
}
