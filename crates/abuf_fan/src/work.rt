// What is drawn, and by which workers.
ghost use Rattle.std.specs.Prelude.{◌≡◌, ◌+◌, ◌-◌, ◌*◌, ◌≤◌, length};
ghost use Rattle.abuf_num.specs.declared.limits.TheConstants.{MAX_PRIMITIVES, MAX_THREADS};
ghost use Rattle.abuf_fan.specs.Chunks.{IsOrder, chunks_of};

use abuf_frame::Frame;
use abuf_raster::{Pattern, Region, ScreenTri};
use abuf_share::Desk;

/// What all workers of a drawing share: the frame, the desk from which they take the numbers of chunks, and what is drawn.
#[derive(Clone, Copy)]
pub(crate) struct Work<'a> {
    pub(crate) frame: &'a Frame,
    pub(crate) desk: &'a Desk,
    pub(crate) tris: &'a [ScreenTri],
    /// The numbers of the triangles, in the order in which they are drawn.
    pub(crate) order: &'a [u32],
    pub(crate) region: Region,
    pub(crate) pattern: Pattern,
    pub(crate) ghost fits: { region.w * region.h ≤ frame.now.pixels },
    pub(crate) ghost few: { length tris.now ≤ MAX_PRIMITIVES },
    pub(crate) ghost each: { IsOrder (length tris.now) order.now },
    pub(crate) ghost chunks: { desk.now.limit ≡ chunks_of (length order.now) },
}

/// Workers whose numbers follow each other.
#[derive(Clone, Copy)]
pub(crate) struct Workers {
    pub(crate) first: u32,
    pub(crate) count: u32,
    pub(crate) ghost some: { 1 ≤ count },
    pub(crate) ghost few: { first + count ≤ MAX_THREADS },
}

impl Workers {
    /// The first of the workers, and the others.
    pub(crate) fn split_first(self) -> (Workers, Workers)
        requires { 2 ≤ self.count }
        ensures { (result.0.count ≡ 1) × (result.1.count ≡ self.count - 1) }
    {
        (
            Workers {
                first: self.first,
                count: 1,
            },
            Workers {
                first: self.first + 1,
                count: self.count - 1,
            },
        )
    }
}
