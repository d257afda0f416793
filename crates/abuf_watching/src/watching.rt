// Drawers and a watcher at work in one frame.
ghost use Rattle.std.specs.Prelude.{◌≡◌, ◌*◌, ◌^◌, ◌<◌, ◌≤◌, length, All, IfOk, OnErr, OnOk};
ghost use Rattle.abuf_frame.specs.Views.{endowment, loose};
ghost use Rattle.abuf_fan.specs.Grows.{Grows};
ghost use Rattle.abuf_picture.specs.Picture.{fragments};
ghost use Rattle.abuf_watching.specs.Looking.{LooksAround};
ghost use Rattle.abuf_watching.specs.Watching.{IsWatched};
ghost use Rattle.abuf_watching.specs.declared.looking.TheConstants.{ROOM};
ghost use denote.Param.Send.{IsSync};

use crate::looking::look_around;
use crate::looks::Looks;
use crate::sighting::look_at_all;
use crate::signal::Signal;
use crate::watch::Watch;
use abuf_fan::draw_all;
use abuf_frame::{Closed, Frame, Pass};
use abuf_num::{List, NoMemory};
use abuf_picture::Target;
use abuf_raster::region_law;
use std::alloc::Global;
use std::thread::{Threads, join_mut};

/// What was seen of a drawing, and its frame.
#[derive(Drop)]
pub(crate) struct Watched {
    /// The looks while others drew.
    pub looks: Looks,
    /// What was seen last at each place, when all had drawn: the words of the pixel's fragments, in the order of the list. Where
    /// the frame is full, some of them.
    pub words: List<List<u64>>,
    pub closed: Closed,
}

/// Draws all primitives by one pass, and tells that it has ended.
fn draw<R: Threads + Sync>(
    rt: &R,
    alloc: Global,
    watch: &Watch,
    signal: &Signal,
    frame: &Frame,
    pass: &mut Pass,
) -> Result<(), NoMemory>
    requires frame { pass.old.frame ≡ frame.now }
    requires pixels { watch.now.target.region.w * watch.now.target.region.h ≤ frame.now.pixels }
    requires credit { 2 ^ 60 ≤ pass.old.view.credit }
    ensures frame { pass.new.frame ≡ pass.old.frame }
    ensures drawn { OnOk result (Grows (fragments watch.now.primitives.triangles.now watch.now.target.pattern watch.now.target.region)
        pass.old.view pass.new.view) }
    ensures unchanged { OnErr result (pass.new ≡ pass.old) }
    ensures endowment { endowment pass.new.view ≡ endowment pass.old.view }
    ensures loose { loose pass.new.view.entries ≡ loose pass.old.view.entries }
{
    let Target {
        region,
        pattern,
        threads,
        ..
    } = watch.target;
    region_law(region);
    let triangles = watch.primitives.triangles;
    let drawn = draw_all(
        rt, alloc, frame, pass, triangles, region, pattern, threads, signal,
    );
    signal.end();
    drawn
}

/// Draws all primitives by one pass, while another looks around.
fn draw_and_look<R: Threads + Sync>(
    rt: &R,
    alloc: Global,
    watch: &Watch,
    frame: &Frame,
    pass: &mut Pass,
    watcher: &mut Pass,
) -> (Looks, Result<(), NoMemory>)
    requires frames { (pass.old.frame ≡ frame.now) × (watcher.old.frame ≡ frame.now) }
    requires pixels { watch.now.target.region.w * watch.now.target.region.h ≡ frame.now.pixels }
    requires credit { 2 ^ 60 ≤ pass.old.view.credit }
    ensures frames { (pass.new.frame ≡ pass.old.frame) × (watcher.new.frame ≡ watcher.old.frame) }
    ensures looks { LooksAround ROOM watch.now.places.now watcher.old.view watcher.new.view result.0 }
    ensures drawn { OnOk result.1 (Grows (fragments watch.now.primitives.triangles.now watch.now.target.pattern watch.now.target.region)
        pass.old.view pass.new.view) }
    ensures unchanged { OnErr result.1 (pass.new ≡ pass.old) }
    ensures endowment { endowment pass.new.view ≡ endowment pass.old.view }
    ensures loose { loose pass.new.view.entries ≡ loose pass.old.view.entries }
{
    let signal = Signal::new();
    let places = watch.places;
    join_mut(
        rt,
        &mut || -> Looks
            requires { (watcher.now.frame ≡ frame.now) × All (λ p. p < frame.now.pixels) places.now × (1 ≤ length places.now) }
            ensures frame { watcher.exit.now.frame ≡ watcher.entry.now.frame }
            ensures looks { LooksAround ROOM places.entry.now watcher.entry.now.view watcher.exit.now.view result }
        { look_around(frame, watcher, places, &signal) },
        &mut || -> Result<(), NoMemory>
            requires { IsSync R.row × (pass.now.frame ≡ frame.now) × (watch.now.target.region.w * watch.now.target.region.h ≡ frame.now.pixels)
                × (2 ^ 60 ≤ pass.now.view.credit) }
            ensures frame { pass.exit.now.frame ≡ pass.entry.now.frame }
            ensures drawn { OnOk result (Grows (fragments watch.entry.now.primitives.triangles.now watch.entry.now.target.pattern watch.entry.now.target.region)
                pass.entry.now.view pass.exit.now.view) }
            ensures unchanged { OnErr result (pass.exit.now ≡ pass.entry.now) }
            ensures endowment { endowment pass.exit.now.view ≡ endowment pass.entry.now.view }
            ensures loose { loose pass.exit.now.view.entries ≡ loose pass.entry.now.view.entries }
        { draw(rt, alloc, watch, &signal, frame, pass) },
    )
}

/// Draws the primitives by the target's number of threads into one frame, while one thread more looks at the pixels at the places in
/// turn, by a pass of its own. The watcher begins before the first worker draws, unless it can't for some milliseconds, and goes on
/// until all is drawn. Then, before the frame is closed, each place is looked at once more. An error means that memory ran out.
pub(crate) fn watch<R: Threads + Sync>(
    rt: &R,
    alloc: Global,
    watch: &Watch,
) -> Result<Watched, NoMemory>
    ensures { IfOk result (λ w. IsWatched ROOM watch.now.primitives.triangles.now watch.now.target.pattern watch.now.target.region
        watch.now.target.nodes watch.now.places.now w.looks w.words w.closed) }
{
    let Target { region, nodes, .. } = watch.target;
    region_law(region);
    let (frame, mut pass) = Frame::start(alloc, region.pixels(), nodes)?;
    let mut watcher = pass.split(&frame, 0);
    let (looks, drawn) = draw_and_look(rt, alloc, watch, &frame, &mut pass, &mut watcher);
    pass.join(&frame, watcher);
    let words = match drawn {
        Ok(()) => look_at_all(alloc, watch, &frame, &mut pass),
        Err(_) => Err(NoMemory),
    };
    let closed = frame.close(pass);
    Ok(Watched {
        looks,
        words: words?,
        closed,
    })
}
