// Calls for users of the crate, which the program doesn't use.
ghost use Rattle.std.specs.Prelude.{◌≡◌, ◌+◌, ◌*◌, ◌<◌, ◌≤◌, length};
ghost use Rattle.abuf_num.specs.declared.limits.TheConstants.{MAX_PRIMITIVES};
ghost use Rattle.abuf_raster.specs.Samples.{offsets_of};
ghost use Rattle.abuf_raster.specs.Hits.{fragments};
ghost use Rattle.abuf_frame.specs.Views.{endowment, loose};
ghost use Rattle.abuf_frame.specs.Draws.{Draws};

use crate::brush::Brush;
use abuf_frame::{Frame, Pass};
use abuf_raster::{Pattern, Region, ScreenTri};

/// Draws the triangle as primitive number `prim`: one new entry for each of its fragments in the region, at the pixel's place
/// in the region (row by row from the top left), with the fragment's packed word. Each new entry is Linked, or Lost where the
/// frame has no node for it. A pass with credit for every pixel of the region is enough for any triangle.
pub fn draw(
    frame: &Frame,
    pass: &mut Pass,
    t: &ScreenTri,
    prim: u32,
    region: Region,
    pattern: Pattern,
)
    requires frame { pass.old.frame ≡ frame.now }
    requires prim { prim < MAX_PRIMITIVES }
    requires pixels { region.w * region.h ≤ frame.now.pixels }
    requires credit { region.w * region.h ≤ pass.old.view.credit }
    ensures frame { pass.new.frame ≡ pass.old.frame }
    ensures draws { Draws (fragments t.now prim (offsets_of pattern) region) pass.old.view pass.new.view }
    ensures credit { pass.new.view.credit + length (fragments t.now prim (offsets_of pattern) region) ≡ pass.old.view.credit }
    ensures few { pass.old.view.credit ≤ pass.new.view.credit + region.w * region.h }
    ensures endowment { endowment pass.new.view ≡ endowment pass.old.view }
    ensures loose { loose pass.new.view.entries ≡ loose pass.old.view.entries }
{
    let mut brush = Brush::new(region, pattern);
    brush.draw(frame, pass, t, prim);
    brush.flush(frame, pass);
}
