// The drawing into a frame and the resolving of its lists, together.
ghost use Rattle.std.specs.Prelude.{IfOk};
ghost use Rattle.abuf_picture.specs.Resolving.{subject, IsRenderingBy};

use crate::drawing::draw;
use crate::primitives::Primitives;
use crate::resolving::Resolve;
use crate::target::Target;
use abuf_fan::Gate;
use abuf_frame::Closed;
use abuf_num::NoMemory;
use abuf_resolve::Resolved;
use abuf_resolve::laws::words_law;
use std::alloc::Global;
use std::thread::Threads;

/// A closed frame, and what was resolved of its lists: nothing where it is full, since then they lack fragments.
#[derive(Drop)]
pub struct Rendering {
    /// The frame into which the primitives were drawn.
    pub closed: Closed,
    /// What was resolved of its lists, unless it is full.
    pub resolved: Option<Resolved>,
}

/// Draws the primitives into a frame as [`draw`](crate::draw) does, and resolves its lists by the way that is handed in. Of that way it
/// knows only what it gives for lists. So whatever is resolved came from the lists of the frame that is handed back. No other source
/// would serve every way. Not even another frame of the same fragments would, since its lists may stand in another order. An error
/// means that memory ran out.
pub fn draw_and_resolve<R: Threads + Sync, W: Resolve, G: Gate + Sync>(
    rt: &R,
    alloc: Global,
    primitives: &Primitives,
    target: &Target,
    way: &W,
    gate: &G,
) -> Result<Rendering, NoMemory>
    ensures { IfOk result (IsRenderingBy (W.gives way.now) (subject primitives.now target.now) target.now.nodes) }
{
    let closed = draw(rt, alloc, primitives, target, gate)?;
    if let Some(_) = closed.full() {
        return Ok(Rendering {
            closed,
            resolved: None,
        });
    }
    words_law(&closed, primitives.triangles, target.pattern, target.region);
    let resolved = way.resolve(rt, alloc, primitives, target, &closed)?;
    Ok(Rendering {
        closed,
        resolved: Some(resolved),
    })
}
