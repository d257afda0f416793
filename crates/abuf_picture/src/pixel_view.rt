// A look at one pixel before the frame is closed.
ghost use Rattle.std.specs.Prelude.{◌≡◌, ◌*◌, ◌<◌, IfOk};
ghost use Rattle.abuf_picture.specs.Drawn.{IsPixelViewOf, found};

use crate::drawing::{close_drawn, draw_pass};
use crate::primitives::Primitives;
use crate::target::Target;
use abuf_fan::Gate;
use abuf_frame::{Closed, Look};
use abuf_num::NoMemory;
use abuf_resolve::laws::one_each_law;
use std::alloc::Global;
use std::thread::Threads;

/// What a reader saw of a pixel before the frame was closed.
#[derive(Drop)]
pub struct PixelView {
    /// The number of all entries of the frame, those that found no node included.
    pub entries: u64,
    /// The words of the pixel's fragments; where some entry found no node, some of them.
    pub words: Vec<u64>,
    /// The frame.
    pub closed: Closed,
}

/// How many words a look left in a slice of this length.
fn found(look: Look, room: usize) -> usize
    ensures { result ≡ found look room }
{
    match look {
        Look::All { count } => count as usize,
        Look::More => room,
        Look::Unlinked { .. } => 0,
    }
}

/// Draws the primitives into a frame, looks at the list of the pixel at this place of the region, and closes the frame. A pixel
/// has no more fragments than there are primitives, so there is room for all, unless some were lost. An error means that memory
/// ran out.
pub fn draw_and_look<R: Threads + Sync, G: Gate + Sync>(
    rt: &R,
    alloc: Global,
    primitives: &Primitives,
    target: &Target,
    place: u32,
    gate: &G,
) -> Result<PixelView, NoMemory>
    requires { place < target.now.region.w * target.now.region.h }
    ensures { IfOk result
        (λ s. IsPixelViewOf primitives.now.triangles.now target.now.pattern target.now.region target.now.nodes place s.entries s.words.items s.closed) }
{
    one_each_law(primitives.triangles, target.pattern, target.region, place);
    let mut words = vec![in alloc; 0; primitives.triangles.len()]?;
    let (frame, mut pass) = draw_pass(rt, alloc, primitives, target, gate)?;
    let entries = pass.count(&frame);
    let room = words.len();
    let look = pass.look(&frame, place, &mut words);
    let count = found(look, room);
    words.truncate(count);
    Ok(PixelView {
        entries,
        words,
        closed: close_drawn(primitives, target, frame, pass),
    })
}
