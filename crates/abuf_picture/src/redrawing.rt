// The drawing into a frame that is kept from the drawing before.
ghost use Rattle.std.specs.Prelude.{◌≡◌, ◌*◌, ◌↔◌, ◌≤◌, IfOk, IfSome, IsTrue};
ghost use Rattle.abuf_frame.specs.Views.{lost};
ghost use Rattle.abuf_picture.specs.Drawn.{IsAttempt, IsDrawn};
ghost use Rattle.abuf_picture.specs.Picture.{IsFrameOf, total};
ghost use Rattle.abuf_picture.specs.Redrawing.{IsRoomyFrameOf, Serves};

use crate::drawing::{Attempt, complete, draw_into, draw_new, likely_nodes, order_of};
use crate::primitives::Primitives;
use crate::target::Target;
use abuf_fan::Gate;
use abuf_frame::{Closed, Frame, Pass};
use abuf_num::NoMemory;
use std::alloc::Global;
use std::thread::Threads;

/// Whether a kept frame serves for a drawing that needs so many nodes.
fn serves(kept: &Closed, target: &Target, needed: u32) -> bool
    ensures { IsTrue result ↔ Serves target.now.region needed target.now.nodes kept.now }
{
    let nodes = kept.nodes();
    kept.pixels() == target.region.pixels() && needed <= nodes && nodes <= target.nodes
}

/// The kept frame, if it serves; otherwise it is dropped.
fn serving(kept: Option<Closed>, target: &Target, needed: u32) -> Option<Closed>
    ensures { IfSome result (Serves target.now.region needed target.now.nodes) }
{
    match kept {
        Some(closed) => {
            if serves(&closed, target, needed) {
                Some(closed)
            } else {
                None
            }
        }
        None => None,
    }
}

/// The kept frame, reopened, into which the primitives are drawn, and its whole pass.
fn draw_kept<R: Threads + Sync, G: Gate + Sync>(
    rt: &R,
    alloc: Global,
    primitives: &Primitives,
    target: &Target,
    kept: Closed,
    gate: &G,
) -> Result<Attempt, NoMemory>
    requires pixels { kept.pixels ≡ target.now.region.w * target.now.region.h }
    requires nodes { (1 ≤ kept.nodes) × (kept.nodes ≤ target.now.nodes) }
    ensures { IfOk result (IsAttempt primitives.now.triangles.now target.now.pattern target.now.region target.now.nodes) }
{
    let nodes = kept.nodes();
    let ordered = order_of(alloc, primitives, target)?;
    let started = kept.reopen(alloc)?;
    let (frame, pass) = draw_into(rt, alloc, &ordered, target, started, gate)?;
    Ok(Attempt { frame, pass, nodes })
}

/// A frame into which the primitives are drawn, and its whole pass: the kept one, reopened, where it serves, or another.
fn redraw_pass<R: Threads + Sync, G: Gate + Sync>(
    rt: &R,
    alloc: Global,
    primitives: &Primitives,
    target: &Target,
    kept: Option<Closed>,
    gate: &G,
) -> Result<(Frame, Pass), NoMemory>
    ensures { IfOk result (λ p. IsDrawn primitives.now.triangles.now target.now.pattern target.now.region target.now.nodes p.0 p.1) }
{
    let needed = likely_nodes(rt, primitives, target);
    match serving(kept, target, needed) {
        Some(closed) => {
            let first = draw_kept(rt, alloc, primitives, target, closed, gate)?;
            complete(rt, alloc, primitives, target, first, gate)
        }
        None => {
            let first = draw_new(rt, alloc, primitives, target, needed, gate)?;
            complete(rt, alloc, primitives, target, first, gate)
        }
    }
}

/// Closes the frame of a drawing, with the nodes that it was made with.
pub(crate) fn close_roomy(
    primitives: &Primitives,
    target: &Target,
    frame: Frame,
    pass: Pass,
) -> Closed
    requires { IsDrawn primitives.now.triangles.now target.now.pattern target.now.region target.now.nodes frame pass }
    ensures frame { IsRoomyFrameOf primitives.now.triangles.now target.now.pattern target.now.region target.now.nodes result }
    ensures kept { total primitives.now.triangles.now target.now.pattern target.now.region ≤ target.now.nodes → lost pass.view.entries ≡ 0 }
{
    frame.close(pass)
}

/// The closed frame of a drawing as one of the target's nodes.
pub(crate) fn in_pool(primitives: &Primitives, target: &Target, closed: Closed) -> Closed
    requires { IsRoomyFrameOf primitives.now.triangles.now target.now.pattern target.now.region target.now.nodes closed }
    ensures { IsFrameOf primitives.now.triangles.now target.now.pattern target.now.region target.now.nodes result }
{
    match closed.full() {
        None => closed.in_larger_pool(target.nodes),
        Some(_) => closed,
    }
}

/// As [`draw`](crate::draw) does, and hands back the frame with the nodes that it was made with, which are the target's, or fewer,
/// where these are enough. A closed frame whose lists aren't needed any more may be handed in as `kept`: where it has as many
/// pixels as the region, nodes enough, and no more than the target, it is reopened. Otherwise it is dropped before another is
/// started.
pub fn redraw<R: Threads + Sync, G: Gate + Sync>(
    rt: &R,
    alloc: Global,
    primitives: &Primitives,
    target: &Target,
    kept: Option<Closed>,
    gate: &G,
) -> Result<Closed, NoMemory>
    ensures { IfOk result (IsRoomyFrameOf primitives.now.triangles.now target.now.pattern target.now.region target.now.nodes) }
{
    let (frame, pass) = redraw_pass(rt, alloc, primitives, target, kept, gate)?;
    Ok(close_roomy(primitives, target, frame, pass))
}
