// The workers, each with a turn and a pass of its own.
ghost use Rattle.std.specs.Prelude.{◌≡◌, ◌+◌, ◌-◌, ◌*◌, ◌/◌, ◌<◌, ◌≤◌, length, take, OnOk, OnErr};
ghost use Rattle.abuf_num.specs.declared.limits.TheConstants.{MAX_PRIMITIVES, MAX_THREADS};
ghost use Rattle.abuf_raster.specs.Samples.{offsets_of};
ghost use Rattle.abuf_raster.specs.Hits.{all_fragments};
ghost use Rattle.abuf_frame.specs.Views.{endowment, loose};
ghost use Rattle.abuf_fan.specs.Grows.{Grows};
ghost use Rattle.abuf_fan.specs.Workers.{CanServe, HaveServed, Parted, credit_for};
ghost use denote.Param.Send.{IsSync};

use crate::chunk::{chunk_of, draw_chunk};
use crate::gate::Gate;
use crate::order::OrderedTriangles;
use crate::work::{Work, Workers};
use abuf_frame::{Frame, Pass};
use abuf_num::NoMemory;
use abuf_raster::{Pattern, Region, ScreenTri};
use abuf_share::{Desk, MAX_NUMBERS, Turn};
use std::alloc::Global;
use std::thread::{Threads, join_mut};

/// The second call of the gate, where the worker has drawn no chunk before.
fn pass_by_again<G: Gate>(gate: &G, worker: u32, pass: &Pass, next: u32) {
    if next == 0 {
        gate.pass_by(worker, pass);
    }
}

/// Takes chunks from the desk and draws them, until none is left. Not inlined, so that what a chunk needs isn't in the frames of
/// [`draw_workers`], of which the caller's stack holds one for each thread.
#[inline(never)]
fn draw_chunks<G: Gate>(gate: &G, worker: u32, work: &Work, pass: &mut Pass, turn: &mut Turn)
    requires can { CanServe work.now 1 turn.old pass.old }
    ensures served { HaveServed work.now turn.old turn.new pass.old pass.new }
{
    gate.pass_by(worker, pass);
    // One above the last chunk drawn, and 0 before the first.
    let mut next = 0;
    while let Some(chunk) = work.desk.take(turn) {
        let numbers = chunk_of(work.order, chunk);
        draw_chunk(work, pass, numbers);
        pass_by_again(gate, worker, pass, next);
        next = chunk + 1;
    }
    pass_by_again(gate, worker, pass, next);
}

/// Splits off a pass with the credit that so many workers on the right need, and keeps what those on the left need.
fn lend(work: &Work, pass: &mut Pass, left: u32, right: u32) -> Pass
    requires frame { pass.old.frame ≡ work.now.frame.now }
    requires workers { left + right ≤ MAX_THREADS }
    requires credit { credit_for work.now (left + right) ≤ pass.old.view.credit }
    ensures left { (pass.new.frame ≡ pass.old.frame) × (credit_for work.now left ≤ pass.new.view.credit) }
    ensures right { (result.frame ≡ pass.old.frame) × (credit_for work.now right ≤ result.view.credit) }
    ensures views { Parted pass.old.view pass.new.view result.view }
{
    let each = work.tris.len() as u64 * work.region.pixels() as u64;
    pass.split(work.frame, right as u64 * each)
}

/// Draws chunks by these workers: the first on a thread of its own, and the others by a pass and a turn that are split off, and
/// joined when all have returned. [`join_mut`] starts a thread for what it is given first. So the caller starts all threads itself:
/// a thread that a new one starts may be left on its parent's processor while another is idle.
fn draw_workers<R: Threads + Sync, G: Gate + Sync>(
    rt: &R,
    gate: &G,
    work: &Work,
    workers: Workers,
    pass: &mut Pass,
    turn: &mut Turn,
)
    requires can { CanServe work.now workers.count turn.old pass.old }
    ensures served { HaveServed work.now turn.old turn.new pass.old pass.new }
{
    if workers.count == 1 {
        draw_chunks(gate, workers.first, work, pass, turn);
        return;
    }
    let (left, right) = workers.split_first();
    let mut other = lend(work, pass, left.count, right.count);
    let mut other_turn = turn.split(work.desk, right.count as u64 * (MAX_NUMBERS + 1) as u64);
    join_mut(
        rt,
        &mut ||
            requires { IsSync R.row × IsSync G.row × CanServe work.now left.count turn.now pass.now }
            ensures { HaveServed work.entry.now turn.entry.now turn.exit.now pass.entry.now pass.exit.now }
        { draw_workers(rt, gate, work, left, pass, turn) },
        &mut ||
            requires { IsSync R.row × IsSync G.row × CanServe work.now right.count other_turn other }
            ensures { HaveServed work.entry.now other_turn.entry other_turn.exit other.entry other.exit }
        { draw_workers(rt, gate, work, right, &mut other, &mut other_turn) },
    );
    pass.join(work.frame, other);
    turn.join(work.desk, other_turn);
}

/// Draws all triangles into the frame in their order, triangle i of the list as primitive number i, by `threads` workers, of 1 to 64:
/// a new entry for each fragment in the region, Linked or Lost. A whole pass stays whole, and a settled one settled. What the pass is
/// told of may grow, by Linked entries that are its own at the return. Where memory runs out, nothing was drawn, and the pass is
/// unchanged.
pub fn draw_ordered<R: Threads + Sync, G: Gate + Sync>(
    rt: &R,
    alloc: Global,
    frame: &Frame,
    pass: &mut Pass,
    ordered: &OrderedTriangles,
    threads: u32,
    gate: &G,
) -> Result<(), NoMemory>
    requires frame { pass.old.frame ≡ frame.now }
    requires pixels { ordered.now.region.w * ordered.now.region.h ≤ frame.now.pixels }
    requires threads { (1 ≤ threads) × (threads ≤ MAX_THREADS) }
    requires credit { threads * (length ordered.now.tris.now * (ordered.now.region.w * ordered.now.region.h)) ≤ pass.old.view.credit }
    ensures frame { pass.new.frame ≡ pass.old.frame }
    ensures drawn { OnOk result
        (Grows (all_fragments ordered.now.tris.now 0 (offsets_of ordered.now.pattern) ordered.now.region) pass.old.view pass.new.view) }
    ensures few { pass.old.view.credit ≤ pass.new.view.credit + length ordered.now.tris.now * (ordered.now.region.w * ordered.now.region.h) }
    ensures unchanged { OnErr result (pass.new ≡ pass.old) }
    ensures endowment { endowment pass.new.view ≡ endowment pass.old.view }
    ensures loose { loose pass.new.view.entries ≡ loose pass.old.view.entries }
{
    let (desk, mut turn) = Desk::start(alloc, ordered.tris.len().div_ceil(64) as u32)?;
    let work = Work {
        frame,
        desk: &desk,
        tris: ordered.tris,
        order: &ordered.numbers,
        region: ordered.region,
        pattern: ordered.pattern,
    };
    let workers = Workers {
        first: 0,
        count: threads,
    };
    draw_workers(rt, gate, &work, workers, pass, &mut turn);
    Ok(())
}

/// Draws all triangles into the frame as [`draw_ordered`] does, in an order that it finds itself.
pub fn draw_all<R: Threads + Sync, G: Gate + Sync>(
    rt: &R,
    alloc: Global,
    frame: &Frame,
    pass: &mut Pass,
    tris: &[ScreenTri],
    region: Region,
    pattern: Pattern,
    threads: u32,
    gate: &G,
) -> Result<(), NoMemory>
    requires frame { pass.old.frame ≡ frame.now }
    requires pixels { region.w * region.h ≤ frame.now.pixels }
    requires count { length tris.now ≤ MAX_PRIMITIVES }
    requires threads { (1 ≤ threads) × (threads ≤ MAX_THREADS) }
    requires credit { threads * (length tris.now * (region.w * region.h)) ≤ pass.old.view.credit }
    ensures frame { pass.new.frame ≡ pass.old.frame }
    ensures drawn { OnOk result (Grows (all_fragments tris.now 0 (offsets_of pattern) region) pass.old.view pass.new.view) }
    ensures few { pass.old.view.credit ≤ pass.new.view.credit + length tris.now * (region.w * region.h) }
    ensures unchanged { OnErr result (pass.new ≡ pass.old) }
    ensures endowment { endowment pass.new.view ≡ endowment pass.old.view }
    ensures loose { loose pass.new.view.entries ≡ loose pass.old.view.entries }
{
    let ordered = OrderedTriangles::new(alloc, tris, region, pattern)?;
    draw_ordered(rt, alloc, frame, pass, &ordered, threads, gate)
}
