// A job's scene, watched.
ghost use Rattle.std.specs.Prelude.{◌≡◌, ◌≤◌, min, IfOk, IfErr, OnOk};
ghost use Rattle.std.specs.String.{string_bytes};
ghost use Rattle.abuf_picture.specs.Picture.{total};
ghost use Rattle.abuf_watching.specs.Report.{report_text};
ghost use Rattle.abuf_watching.specs.Show.{IsWatchOf, StopsFor, TellsLooks};

use crate::grid::grid;
use crate::looks::Looks;
use crate::report::report;
use crate::stop::Stop;
use crate::watch::Watch;
use crate::watching::watch;
use abuf_cli::Job;
use abuf_fan::max_fragments;
use abuf_picture::{Primitives, Target};
use abuf_raster::Region;
use abuf_view::Projected;
use std::alloc::Global;
use std::thread::Threads;

/// What there is to be written.
#[derive(Drop)]
pub struct WatchOutput {
    /// The looks while others drew.
    pub looks: Looks,
    /// What was seen last of each pixel, and then the numbers of the drawing.
    pub report: String,
}

/// How many of so many threads draw: all but the one that watches. With one there is a watcher besides.
fn drawers(threads: u32) -> u32
    requires { 1 ≤ threads }
    ensures some { 1 ≤ result }
    ensures few { result ≤ threads }
{
    (threads - 1).max(1)
}

/// How many nodes a frame is made with where the pool may have so many, for so many fragments at most.
fn nodes_for(most: u64, nodes: u32) -> u32
    requires { 1 ≤ nodes }
    ensures some { 1 ≤ result }
    ensures few { result ≤ nodes }
    ensures enough { min most nodes ≤ result }
{
    most.clamp(1, u64::from(nodes)) as u32
}

/// Watches a drawing, and gives the report of it. It stops with `Full` where there are more fragments than nodes, and with `Memory`
/// where that ran out.
pub(crate) fn watch_and_report<R: Threads + Sync>(
    rt: &R,
    alloc: Global,
    drawing: &Watch,
) -> Result<WatchOutput, Stop>
    ensures report { IfOk result (λ s. string_bytes s.report ≡ report_text drawing.now.primitives.triangles.now drawing.now.primitives.paints.now
        drawing.now.target.pattern drawing.now.target.background drawing.now.target.region drawing.now.places.now) }
    ensures looks { IfOk result (λ s. TellsLooks drawing.now.primitives.triangles.now drawing.now.target.pattern drawing.now.target.region
        drawing.now.places.now s.looks) }
    ensures fits { OnOk result (total drawing.now.primitives.triangles.now drawing.now.target.pattern drawing.now.target.region ≤ drawing.now.target.nodes) }
    ensures stop { IfErr result (StopsFor (total drawing.now.primitives.triangles.now drawing.now.target.pattern drawing.now.target.region)
        drawing.now.target.nodes) }
{
    let watched = watch(rt, alloc, drawing)?;
    if let Some(full) = watched.closed.full() {
        return Err(Stop::Full {
            fragments: full.fragments,
            nodes: full.nodes,
        });
    }
    let report = report(
        rt,
        alloc,
        drawing,
        watched.words.as_slice(),
        &watched.closed,
    )?;
    Ok(WatchOutput {
        looks: watched.looks,
        report,
    })
}

/// Draws a job's scene on all but one of its threads, while that one looks at the pixels of a grid.
pub(crate) fn show<R: Threads + Sync>(
    rt: &R,
    alloc: Global,
    job: &Job,
    projected: &Projected,
) -> Result<WatchOutput, Stop>
    ensures { IfOk result (λ s. IsWatchOf job.now projected.now.tris projected.now.paints (string_bytes s.report) s.looks) }
{
    let region = Region::whole_image(job.camera().width(), job.camera().height());
    let primitives = Primitives::of(projected);
    let pattern = job.pattern();
    let threads = drawers(job.threads());
    let most = max_fragments(
        rt,
        primitives.triangles,
        region,
        pattern,
        threads,
        u64::from(job.nodes()),
    );
    let places = grid(alloc, region)?;
    let drawing = Watch {
        primitives,
        target: Target {
            region,
            pattern,
            background: job.background(),
            nodes: nodes_for(most, job.nodes()),
            threads,
        },
        places: &places,
    };
    watch_and_report(rt, alloc, &drawing)
}
