// `pick`: the report of one pixel's fragments.
ghost use Rattle.std.specs.Prelude.{◌≡◌, ◌<◌};
ghost use Rattle.abuf_cli.specs.declared.job.Storage.TheVariants.{OneFrame};
ghost use Rattle.abuf_cli.specs.declared.job.What.TheVariants as what;
ghost use Rattle.abuf_top.specs.Drawn.{IsOutputOf};

use crate::drawing::Drawing;
use crate::outcome::Outcome;
use crate::report::report_of;
use crate::stop::FullPool;
use abuf_fan::Gate;
use abuf_num::List;
use abuf_picture::{PixelView, draw_and_look};
use std::alloc::Global;
use std::thread::Threads;

/// The report of pixel (x, y). Its list is read before the frame is closed, and counts where no fragment was lost.
pub(crate) fn pick<R: Threads + Sync, G: Gate + Sync>(
    rt: &R,
    alloc: Global,
    drawing: &Drawing,
    x: u32,
    y: u32,
    gate: &G,
) -> Outcome<List<u8>>
    requires what { drawing.now.what ≡ what.Pick x y }
    requires pixel { (x < drawing.now.job.camera.width) × (y < drawing.now.job.camera.height) }
    requires storage { drawing.now.job.storage ≡ OneFrame }
    ensures { IsOutputOf drawing.now result.result result.closed }
{
    let place = y * drawing.job().camera().width() + x;
    let target = drawing.target();
    let Ok(pixel_view) = draw_and_look(rt, alloc, &drawing.primitives(), &target, place, gate)
    else {
        return Outcome::out_of_memory();
    };
    let PixelView {
        entries: fragments,
        words,
        closed,
    } = pixel_view;
    let nodes = drawing.job().nodes();
    if fragments > u64::from(nodes) {
        return Outcome::full(FullPool::Image { fragments, nodes }, Some(closed));
    }
    let report = report_of(alloc, drawing, x, y, words);
    Outcome::of(report, Some(closed))
}
