// The drawing into a frame, and its closing.
ghost use Rattle.std.specs.Prelude.{◌≡◌, ◌*◌, ◌≤◌, length, min, IfOk};
ghost use denote.Param.Send.{IsSync};
ghost use Rattle.abuf_num.specs.declared.limits.TheConstants.{MAX_NODES, MAX_PRIMITIVES};
ghost use Rattle.abuf_frame.specs.Words.{Sized};
ghost use Rattle.abuf_frame.specs.Views.{lost};
ghost use Rattle.abuf_picture.specs.Drawn.{IsAttempt, IsDrawn, IsFilled, IsOrderOf, IsStarted};
ghost use Rattle.abuf_picture.specs.Picture.{IsFrameOf, total};

use crate::primitives::Primitives;
use crate::redrawing::{close_roomy, in_pool, redraw};
use crate::target::Target;
use abuf_fan::{Gate, OrderedTriangles, draw_ordered, likely_fragments};
use abuf_frame::{Closed, Frame, InitialWords, Pass};
use abuf_num::NoMemory;
use abuf_raster::region_law;
use std::alloc::Global;
use std::thread::{Threads, join};

/// How many nodes a pool is made with that may have so many, for so many fragments at most.
fn nodes_for(most: u64, nodes: u32) -> u32
    requires { 1 ≤ nodes }
    ensures some { 1 ≤ result }
    ensures few { result ≤ nodes }
    ensures enough { min most nodes ≤ result }
{
    most.clamp(1, u64::from(nodes)) as u32
}

/// How many nodes the frame of a drawing is made with at first: about as many as the primitives take, and no more than the target has.
/// A node that is never claimed costs memory, and the time to clear it.
pub(crate) fn likely_nodes<R: Threads + Sync>(
    rt: &R,
    primitives: &Primitives,
    target: &Target,
) -> u32
    ensures some { 1 ≤ result }
    ensures few { result ≤ target.now.nodes }
{
    let most = likely_fragments(
        rt,
        primitives.triangles,
        target.region,
        target.pattern,
        target.threads,
        u64::from(target.nodes),
    );
    nodes_for(most, target.nodes)
}

/// A frame that was drawn into, its whole pass, and how many nodes it has.
pub(crate) struct Attempt {
    pub(crate) frame: Frame,
    pub(crate) pass: Pass,
    pub(crate) nodes: u32,
}

/// The triangles in the order in which they are drawn.
pub(crate) fn order_of<'a>(
    alloc: Global,
    primitives: &Primitives<'a>,
    target: &Target,
) -> Result<OrderedTriangles<'a>, NoMemory>
    ensures { IfOk result (IsOrderOf primitives.now.triangles.now target.now) }
{
    OrderedTriangles::new(alloc, primitives.triangles, target.region, target.pattern)
}

/// Draws the primitives into a frame that was started, on the target's number of threads.
pub(crate) fn draw_into<R: Threads + Sync, G: Gate + Sync>(
    rt: &R,
    alloc: Global,
    ordered: &OrderedTriangles,
    target: &Target,
    started: (Frame, Pass),
    gate: &G,
) -> Result<(Frame, Pass), NoMemory>
    requires order { (ordered.now.region ≡ target.now.region) × (ordered.now.pattern ≡ target.now.pattern) }
    requires started { IsStarted target.now.region started.0 started.1 }
    ensures filled { IfOk result (λ p. IsFilled ordered.now.tris.now target.now.pattern target.now.region p.0 p.1) }
    ensures nodes { IfOk result (λ p. p.0.nodes ≡ started.0.nodes) }
{
    let (frame, mut pass) = started;
    region_law(ordered.region);
    let drawn = draw_ordered(rt, alloc, &frame, &mut pass, ordered, target.threads, gate);
    match drawn {
        Ok(()) => Ok((frame, pass)),
        Err(_) => {
            frame.close(pass);
            Err(NoMemory)
        }
    }
}

/// From how many words on a frame's start is shared among threads: for fewer, starting them takes longer.
const MANY_WORDS: usize = 1048576;

/// The words of the frame at its start. While one thread lays them out, another allocates as much memory, writes to it and frees it.
/// So the words are then copied into memory that the kernel has already cleared. Nonzero values are written, since new memory for
/// zeros wouldn't be touched. Correctness doesn't depend on whether that memory was available.
fn initial_words_for<R: Threads + Sync>(
    rt: &R,
    alloc: Global,
    target: &Target,
    room: u32,
) -> Result<InitialWords, NoMemory>
    requires { (1 ≤ room) × (room ≤ MAX_NODES) }
    ensures { IfOk result (λ b. (b.pixels ≡ target.now.region.w * target.now.region.h) × (b.nodes ≡ room)) }
{
    let pixels = target.region.pixels();
    let words = 1 + pixels as usize + 2 * room as usize;
    if target.threads == 1 || words < MANY_WORDS {
        return InitialWords::new(alloc, pixels, room);
    }
    let (initial_words, warmed) = join(
        rt,
        move || -> Result<InitialWords, NoMemory>
            requires { Sized pixels room }
            ensures { IfOk result (λ b. (b.pixels ≡ pixels) × (b.nodes ≡ room)) }
        { InitialWords::new(alloc, pixels, room) },
        move || -> Result<Vec<u64>, NoMemory> { Ok(vec![in alloc; u64::MAX; words]?) },
    );
    drop(warmed);
    initial_words
}

/// From how many triangles on their order is found beside the frame's start: for fewer, starting a thread takes longer.
const MANY_TRIANGLES: usize = 8192;

/// The words of the frame at its start, and the triangles in order. Where there are many, and three threads or more, their order is found
/// on a thread of its own.
fn prepare<'a, R: Threads + Sync>(
    rt: &R,
    alloc: Global,
    primitives: &Primitives<'a>,
    target: &Target,
    room: u32,
) -> Result<(InitialWords, OrderedTriangles<'a>), NoMemory>
    requires { (1 ≤ room) × (room ≤ MAX_NODES) }
    ensures words { IfOk result (λ p. (p.0.pixels ≡ target.now.region.w * target.now.region.h) × (p.0.nodes ≡ room)) }
    ensures order { IfOk result (λ p. IsOrderOf primitives.now.triangles.now target.now p.1) }
{
    let triangles = primitives.triangles;
    if target.threads < 3 || triangles.len() < MANY_TRIANGLES {
        // In the other order this would lie in the memory that is kept for the copy of the words.
        let ordered = order_of(alloc, primitives, target)?;
        let initial_words = initial_words_for(rt, alloc, target, room)?;
        return Ok((initial_words, ordered));
    }
    let (ordered, initial_words) = join(
        rt,
        move || -> Result<OrderedTriangles, NoMemory>
            requires { length triangles.now ≤ MAX_PRIMITIVES }
            ensures { IfOk result (IsOrderOf triangles.entry.now target.entry.now) }
        { OrderedTriangles::new(alloc, triangles, target.region, target.pattern) },
        move || -> Result<InitialWords, NoMemory>
            requires { IsSync R.row × (1 ≤ room) × (room ≤ MAX_NODES) }
            ensures { IfOk result (λ b. (b.pixels ≡ target.entry.now.region.w * target.entry.now.region.h) × (b.nodes ≡ room)) }
        { initial_words_for(rt, alloc, target, room) },
    );
    Ok((initial_words?, ordered?))
}

/// A new frame of so many nodes into which the primitives are drawn, on the target's number of threads, and its whole pass.
pub(crate) fn draw_new<R: Threads + Sync, G: Gate + Sync>(
    rt: &R,
    alloc: Global,
    primitives: &Primitives,
    target: &Target,
    nodes: u32,
    gate: &G,
) -> Result<Attempt, NoMemory>
    requires nodes { (1 ≤ nodes) × (nodes ≤ target.now.nodes) }
    ensures attempt { IfOk result (IsAttempt primitives.now.triangles.now target.now.pattern target.now.region target.now.nodes) }
    ensures nodes { IfOk result (λ a. a.nodes ≡ nodes) }
{
    let (initial_words, ordered) = prepare(rt, alloc, primitives, target, nodes)?;
    let started = Frame::start_from(alloc, &initial_words)?;
    drop(initial_words);
    let (frame, pass) = draw_into(rt, alloc, &ordered, target, started, gate)?;
    Ok(Attempt { frame, pass, nodes })
}

/// The frame of an attempt and its pass, where it has a node for each fragment, or as many as the target. Else the primitives are drawn
/// once more, into a frame that has. This is rare, since an attempt has as many nodes as are likely to be enough.
pub(crate) fn complete<R: Threads + Sync, G: Gate + Sync>(
    rt: &R,
    alloc: Global,
    primitives: &Primitives,
    target: &Target,
    first: Attempt,
    gate: &G,
) -> Result<(Frame, Pass), NoMemory>
    requires { IsAttempt primitives.now.triangles.now target.now.pattern target.now.region target.now.nodes first }
    ensures { IfOk result (λ p. IsDrawn primitives.now.triangles.now target.now.pattern target.now.region target.now.nodes p.0 p.1) }
{
    let Attempt {
        frame,
        mut pass,
        nodes,
    } = first;
    let fragments = pass.count(&frame);
    if fragments <= u64::from(nodes) || nodes == target.nodes {
        return Ok((frame, pass));
    }
    // It is closed to be dropped, before memory is taken for another.
    frame.close(pass);
    let enough = nodes_for(fragments, target.nodes);
    let Attempt {
        frame,
        pass,
        nodes: _,
    } = draw_new(rt, alloc, primitives, target, enough, gate)?;
    Ok((frame, pass))
}

/// A frame with a node for each fragment of the primitives, or as many as the target, into which they are drawn, and its whole pass.
pub(crate) fn draw_pass<R: Threads + Sync, G: Gate + Sync>(
    rt: &R,
    alloc: Global,
    primitives: &Primitives,
    target: &Target,
    gate: &G,
) -> Result<(Frame, Pass), NoMemory>
    ensures { IfOk result (λ p. IsDrawn primitives.now.triangles.now target.now.pattern target.now.region target.now.nodes p.0 p.1) }
{
    let nodes = likely_nodes(rt, primitives, target);
    let first = draw_new(rt, alloc, primitives, target, nodes, gate)?;
    complete(rt, alloc, primitives, target, first, gate)
}

/// Closes the frame of a drawing, as one of the target's nodes.
pub(crate) fn close_drawn(
    primitives: &Primitives,
    target: &Target,
    frame: Frame,
    pass: Pass,
) -> Closed
    requires { IsDrawn primitives.now.triangles.now target.now.pattern target.now.region target.now.nodes frame pass }
    ensures frame { IsFrameOf primitives.now.triangles.now target.now.pattern target.now.region target.now.nodes result }
    ensures kept { total primitives.now.triangles.now target.now.pattern target.now.region ≤ target.now.nodes → lost pass.view.entries ≡ 0 }
{
    let closed = close_roomy(primitives, target, frame, pass);
    in_pool(primitives, target, closed)
}

/// The closed frame into which the primitives are drawn, by the target's number of workers together. Every worker passes by the gate
/// twice, or four times, where the primitives have to be drawn once more, into a frame of more nodes. An error means that memory ran out.
pub fn draw<R: Threads + Sync, G: Gate + Sync>(
    rt: &R,
    alloc: Global,
    primitives: &Primitives,
    target: &Target,
    gate: &G,
) -> Result<Closed, NoMemory>
    ensures { IfOk result (IsFrameOf primitives.now.triangles.now target.now.pattern target.now.region target.now.nodes) }
{
    let closed = redraw(rt, alloc, primitives, target, None, gate)?;
    Ok(in_pool(primitives, target, closed))
}
