// `demo`: the summary of the demonstration scene.
ghost use Rattle.std.specs.Prelude.{◌≡◌};
ghost use Rattle.abuf_cli.specs.declared.job.Storage.TheVariants.{OneFrame};
ghost use Rattle.abuf_cli.specs.declared.job.What.TheVariants as what;
ghost use Rattle.abuf_top.specs.Listed.{IsOutputBy};

use crate::drawing::Drawing;
use crate::outcome::Outcome;
use crate::summary::summary_from;
use crate::whole::{Whole, resolve_whole};
use abuf_fan::Gate;
use abuf_num::List;
use abuf_picture::Resolve;
use std::alloc::Global;
use std::thread::Threads;

/// The summary of a drawing of the demonstration scene.
pub(crate) fn summarize<R: Threads + Sync, W: Resolve, G: Gate + Sync>(
    rt: &R,
    alloc: Global,
    drawing: &Drawing,
    number: u32,
    way: &W,
    gate: &G,
) -> Outcome<List<u8>>
    requires what { drawing.now.what ≡ what.Demo number }
    requires storage { drawing.now.job.storage ≡ OneFrame }
    ensures { IsOutputBy (W.gives way.now) drawing.now result.result result.closed }
{
    match resolve_whole(rt, alloc, drawing, way, gate) {
        Ok(Whole { closed, resolved }) => {
            let summary = summary_from(alloc, drawing, closed.fragments(), &resolved);
            Outcome::of(summary, Some(closed))
        }
        Err(early) => early,
    }
}
