// What is written, by the command.
ghost use Rattle.std.specs.Prelude.{◌≡◌, IfSome, IfErr};
ghost use Rattle.abuf_picture.specs.Resolving.{Agrees};
ghost use Rattle.abuf_top.specs.Listed.{subject_of, IsOutputBy, WritesFrom};
ghost use Rattle.abuf_top.specs.Ending.{IsFrameOf, Ends, WritesLast, HandsBack};
ghost use Rattle.abuf_top.specs.Image.{has_one_frame};
ghost use Rattle.abuf_io.specs.Sinks.{sink_change};
ghost use Rattle.abuf_top.specs.Stopped.{IsOfDrawing};
ghost use Rattle.abuf_top.specs.Verdict.{pool_verdict};

use crate::commands::demo::summarize;
use crate::commands::pick::pick;
use crate::commands::render::render;
use crate::drawing::Drawing;
use crate::outcome::Outcome;
use crate::stop::Stop;
use abuf_cli::What;
use abuf_fan::Gate;
use abuf_io::{Sink, write_all};
use abuf_num::List;
use abuf_picture::{Compositing, Resolve};
use std::alloc::Global;
use std::thread::Threads;

/// Draws the primitives, and makes the output of the job's command, unless a pool is full.
fn output_of<R: Threads + Sync, W: Resolve, G: Gate + Sync>(
    rt: &R,
    alloc: Global,
    drawing: &Drawing,
    way: &W,
    gate: &G,
) -> Outcome<List<u8>>
    ensures { IsOutputBy (W.gives way.now) drawing.now result.result result.closed }
{
    match drawing.what() {
        What::Render => render(rt, alloc, drawing, way, gate),
        What::Pick { x, y } => pick(rt, alloc, drawing, x, y, gate),
        What::Demo { number } => summarize(rt, alloc, drawing, number, way, gate),
    }
}

/// Draws the primitives and writes the output of the job's command by one call, unless a pool is full. If all fragments are in one
/// frame, its lists are resolved by the way that is handed in. The image or the summary that is written comes from the lists of the
/// frame that is handed back: this function knows no more of the way than what it gives for lists.
pub(crate) fn write_resolved<R: Threads + Sync, O: Sink, W: Resolve, G: Gate + Sync>(
    rt: &R,
    alloc: Global,
    drawing: &Drawing,
    out: &mut O,
    way: &W,
    gate: &G,
) -> Outcome<()>
    ensures ends { Agrees (W.gives way.now) (subject_of drawing.now)
        → Ends (pool_verdict drawing.now) ⊥ (sink_change O.taken O.faults out.old out.new) result.result }
    ensures listed { WritesFrom (W.gives way.now) drawing.now (sink_change O.taken O.faults out.old out.new) result.result result.closed }
    ensures last { WritesLast (sink_change O.taken O.faults out.old out.new) result.result }
    ensures stops { IfErr result.result IsOfDrawing }
    ensures closed { IfSome result.closed (IsFrameOf drawing.now) }
    ensures handed { HandsBack (has_one_frame drawing.now.job) result.result result.closed }
{
    let Outcome { result, closed } = output_of(rt, alloc, drawing, way, gate);
    let result = match result {
        Ok(bytes) => match write_all(out, bytes.as_slice()) {
            Ok(()) => Ok(()),
            Err(_) => Err(Stop::WriteFault),
        },
        Err(stop) => Err(stop),
    };
    Outcome { result, closed }
}

/// Draws and writes like [`write_resolved`], by `Compositing`, which gives what the definition says.
pub(crate) fn write_output<R: Threads + Sync, O: Sink, G: Gate + Sync>(
    rt: &R,
    alloc: Global,
    drawing: &Drawing,
    out: &mut O,
    gate: &G,
) -> Outcome<()>
    ensures ends { Ends (pool_verdict drawing.now) ⊥ (sink_change O.taken O.faults out.old out.new) result.result }
    ensures last { WritesLast (sink_change O.taken O.faults out.old out.new) result.result }
    ensures stops { IfErr result.result IsOfDrawing }
    ensures closed { IfSome result.closed (IsFrameOf drawing.now) }
    ensures handed { HandsBack (has_one_frame drawing.now.job) result.result result.closed }
{
    drawing.compositing_law();
    write_resolved(rt, alloc, drawing, out, &Compositing, gate)
}
