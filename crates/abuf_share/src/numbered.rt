// Calls for numbers, shared among threads.
ghost use Rattle.std.specs.Prelude.{ℕ, ◌≡◌, ◌+◌, ◌*◌, ◌^◌, ◌<◌, ◌≤◌, [], vec_len, All, IfOk, OnOk};
ghost use Rattle.abuf_num.specs.declared.limits.TheConstants.{MAX_THREADS};
ghost use Rattle.abuf_share.specs.Desk.{whole_view};
ghost use Rattle.abuf_share.specs.Numbered.{GivesEachOk, HasCalled, IsFresh};
ghost use Rattle.abuf_share.specs.declared.desk.TheConstants.{MAX_NUMBERS};

use crate::desk::{Desk, MAX_NUMBERS, Turn};
use crate::jobs::map_jobs;
use abuf_num::NoMemory;
use std::alloc::Global;
use std::thread::Threads;

/// What a call gave, and for which number.
#[derive(Drop)]
pub(crate) struct Entry<X> {
    pub(crate) number: u32,
    pub(crate) value: X,
}

/// What a worker gives back: its turn, and the results for the numbers that it drew.
#[derive(Drop)]
pub(crate) struct Done<X> {
    pub(crate) turn: Turn,
    pub(crate) entries: Vec<Entry<X>>,
}

/// A turn for each worker, with credit for all numbers below the limit and one more.
fn turns_of(
    alloc: Global,
    desk: &Desk,
    turn: &mut Turn,
    workers: u32,
) -> Result<Vec<Turn>, NoMemory>
    requires turn { (turn.old.table ≡ desk.now.table) × (turn.old.view ≡ whole_view) }
    requires workers { workers ≤ MAX_THREADS }
    ensures table { turn.new.table ≡ turn.old.table }
    ensures rest { OnOk result ((turn.new.view.drawn ≡ []) × (turn.new.view.credit + workers * (MAX_NUMBERS + 1) ≡ 2 ^ 60)) }
    ensures len { IfOk result (λ turns. vec_len turns ≡ workers) }
    ensures each { IfOk result (λ turns. All (IsFresh desk.now) turns.items) }
{
    let mut turns = Vec::with_capacity(alloc, workers as usize)?;
    for _worker in 0..workers {
        let other = turn.split(desk, (MAX_NUMBERS + 1) as u64);
        turns.push(other)?;
    }
    Ok(turns)
}

/// Draws numbers and calls `f` for each, until none is left.
fn call_each<X: Drop, F: Fn(u32) -> Result<X, NoMemory>>(
    alloc: Global,
    desk: &Desk,
    mut turn: Turn,
    f: &F,
) -> Result<Done<X>, NoMemory>
    requires turn { IsFresh desk.now turn }
    requires limit { desk.now.limit ≤ MAX_NUMBERS }
    requires accepts { (i : ℕ) → i < desk.now.limit → F.pre f.now i }
    ensures { IfOk result (λ done. HasCalled F.Fn f.now desk.now done) }
{
    let mut entries = Vec::new(alloc);
    while let Some(number) = desk.take(&mut turn) {
        let value = f(number)?;
        entries.push(Entry { number, value })?;
    }
    Ok(Done { turn, entries })
}

/// Calls `f(0)` to `f(count - 1)`, each once, on 1 to 64 threads, and gives the results by ascending number. Each thread takes the
/// next number when it is done with its last, so that all end at about the same time however long the calls take. An error means
/// that memory ran out, in one of the calls or beside them; some calls may not have been made then.
pub fn map_numbered<R: Threads + Sync, X: Send + Drop, F: Fn(u32) -> Result<X, NoMemory> + Sync>(
    rt: &R,
    alloc: Global,
    count: u32,
    threads: u32,
    f: &F,
) -> Result<Vec<X>, NoMemory>
    requires count { count ≤ MAX_NUMBERS }
    requires threads { (1 ≤ threads) × (threads ≤ MAX_THREADS) }
    requires accepts { (i : ℕ) → i < count → F.pre f.now i }
    ensures len { IfOk result (λ v. vec_len v ≡ count) }
    ensures each { IfOk result (λ v. GivesEachOk F.Fn f.now count v.items) }
{
    let (owned, mut turn) = Desk::start(alloc, count)?;
    let desk = &owned;
    // No more workers than numbers.
    let turns = turns_of(alloc, desk, &mut turn, threads.min(count).max(1))?;
    let mut workers = map_jobs(rt, alloc, turns, &|turn| call_each(alloc, desk, turn, f))?;
    let mut entries = Vec::with_capacity(alloc, count as usize)?;
    while let Some(worker) = workers.pop() {
        let mut done = worker?;
        turn.join(desk, done.turn);
        entries.append(&mut done.entries)?;
    }
    entries.sort_unstable_by_key(|entry| entry.number);
    let values = entries.into_iter().map(|entry| entry.value).collect(alloc)?;
    Ok(values)
}
