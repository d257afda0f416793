// A scene whose fragments are all in one frame.
ghost use Rattle.std.specs.Prelude.{◌≡◌, MatchResult, Err, Some};
ghost use Rattle.abuf_cli.specs.declared.job.Storage.TheVariants.{OneFrame};
ghost use Rattle.abuf_top.specs.declared.stop.FullPool.TheVariants as full;
ghost use Rattle.abuf_top.specs.declared.stop.Stop.TheVariants as stop;
ghost use Rattle.abuf_top.specs.Listed.{IsOutputBy, IsWholeBy};

use crate::drawing::Drawing;
use crate::outcome::Outcome;
use crate::stop::FullPool;
use abuf_fan::Gate;
use abuf_frame::Closed;
use abuf_num::List;
use abuf_picture::{Rendering, Resolve, draw_and_resolve};
use abuf_resolve::Resolved;
use std::alloc::Global;
use std::thread::Threads;

/// A closed frame in which every fragment has a node, and what was resolved of its lists.
#[derive(Drop)]
pub(crate) struct Whole {
    pub(crate) closed: Closed,
    pub(crate) resolved: Resolved,
}

/// A drawing stops since its pool is full.
fn full_image(closed: Closed) -> Outcome<List<u8>>
    ensures result { result.result ≡ Err (stop.PoolFull (full.Image closed.fragments closed.nodes)) }
    ensures closed { result.closed ≡ Some closed }
{
    let pool = FullPool::Image {
        fragments: closed.fragments(),
        nodes: closed.nodes(),
    };
    Outcome::full(pool, Some(closed))
}

/// The closed frame of a drawing whose fragments all have nodes, with what the way gives for its lists, or how it stops. The lists are
/// walked once.
pub(crate) fn resolve_whole<R: Threads + Sync, W: Resolve, G: Gate + Sync>(
    rt: &R,
    alloc: Global,
    drawing: &Drawing,
    way: &W,
    gate: &G,
) -> Result<Whole, Outcome<List<u8>>>
    requires storage { drawing.now.job.storage ≡ OneFrame }
    ensures { MatchResult result (IsWholeBy (W.gives way.now) drawing.now)
        (λ early. IsOutputBy (W.gives way.now) drawing.now early.result early.closed) }
{
    let primitives = drawing.primitives();
    let target = drawing.target();
    let Ok(rendering) = draw_and_resolve(rt, alloc, &primitives, &target, way, gate) else {
        return Err(Outcome::out_of_memory());
    };
    let Rendering { closed, resolved } = rendering;
    match resolved {
        Some(resolved) => Ok(Whole { closed, resolved }),
        None => Err(full_image(closed)),
    }
}
