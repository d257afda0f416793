// What is drawn, as resolving sees it.
ghost use Rattle.std.specs.Prelude.{◌≡◌, ◌<◌, ◌≤◌, length};
ghost use Rattle.abuf_num.specs.declared.limits.TheConstants.{MAX_PRIMITIVES, MAX_SIDE};

pub(crate) mod bounded;
pub(crate) mod pixels;
pub(crate) mod seen;
pub(crate) mod spans;
pub(crate) mod threads;

use crate::planes::Planes;
use abuf_num::Paint;
use abuf_raster::Pattern;

/// A pixel, by its column and its row.
#[derive(Clone, Copy)]
pub struct Pixel {
    /// The column, from 0 at the left of the screen.
    pub x: u32,
    /// The row, from 0 at the top of the screen.
    pub y: u32,
    pub ghost x_small: { x < MAX_SIDE },
    pub ghost y_small: { y < MAX_SIDE },
}

/// What is resolved, but for the lists.
#[derive(Drop)]
pub struct Shading<'a, 'b> {
    /// The depth planes of the triangles, in their order.
    pub planes: Planes<'a>,
    /// The paint of each triangle.
    pub paints: &'b [Paint],
    /// Where the samples of a pixel lie.
    pub pattern: Pattern,
    /// The colour under all triangles, each channel from 0 to 65535.
    pub background: [u16; 3],
    pub ghost few: { length planes ≤ MAX_PRIMITIVES },
    pub ghost painted: { length paints.now ≡ length planes },
}
