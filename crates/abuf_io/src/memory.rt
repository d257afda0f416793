// Calls for users of the crate, which the program doesn't use.
// Sources, sinks and shelves over memory, of which some fail by a plan.
ghost use Rattle.std.specs.Prelude.{◌≡◌, ◌≤◌, ◌<◌, ◌↔◌, ◌⊎◌, ℕ, List as Items, [], length, take, vec_len, vec_capacity, drop, min, slice_get, IfOk, IsErr, Some, Ok, Err, true};
ghost use Rattle.std.specs.Io.{ReadsAtMost, WritesAtMost};
ghost use Rattle.std.specs.Io.KnownBytes.{ReadConsumes, WriteAppends};
ghost use Rattle.abuf_io.specs.Fetching.{held, IsFetch};
ghost use Rattle.abuf_io.specs.Plans.{IsPlan, let_through};

use crate::memory_shelf::copy;
use crate::plan::next_step;
use crate::{Failed, Fetch, Shelf, Sink, Source, Step};
use abuf_num::{List, NoMemory};
use std::alloc::Global;

/// A source over memory whose calls go by a plan: each uses one step, and after the plan a call gives
/// all that the buffer has room for. Its count of faults is the number of the calls that failed.
#[derive(Drop)]
pub struct MemSource {
    bytes: List<u8>,
    plan: List<Step>,
    at: usize,
    used: usize,
    faults: u64,
    ghost within: { at ≤ length bytes },
    ghost planned: { used ≤ length plan },
    ghost is_plan: { IsPlan plan },
}

/// A source over memory that never fails.
#[derive(Drop)]
pub struct SteadySource {
    bytes: List<u8>,
    at: usize,
    ghost within: { at ≤ length bytes },
}

/// Copies as many bytes as fit, at most `most`.
fn give(bytes: &[u8], buf: &mut [u8], most: usize) -> usize
    ensures count { result ≡ min most (min (length buf.old) (length bytes.now)) }
    ensures copied { take result buf.new ≡ take result bytes.now }
{
    let count = most.min(buf.len().min(bytes.len()));
    buf[..count].copy_from_slice(&bytes[..count]);
    count
}

impl MemSource {
    ghost use Rattle.abuf_io.specs.Memory.{source_left, source_plan, source_faults};

    /// All of `bytes` are left. Takes no memory.
    pub fn new(bytes: List<u8>, plan: List<Step>) -> MemSource
        requires { IsPlan plan }
        ensures left { source_left result ≡ bytes }
        ensures plan { source_plan result ≡ plan }
        ensures faults { source_faults result ≡ 0 }
    {
        MemSource {
            bytes,
            plan,
            at: 0,
            used: 0,
            faults: 0,
        }
    }
}

impl Source for MemSource {
    ghost use Rattle.std.specs.Prelude.{Some, drop};
    ghost use Rattle.abuf_io.specs.Causes.{HasCause, CountsFailures};
    ghost use Rattle.abuf_io.specs.Memory.{source_plan, source_left, source_faults};

    ghost left = { λ s. Some (source_left s) };

    ghost faults = { λ s. s.faults };

    fn read(&mut self, buf: &mut [u8]) -> Result<usize, Failed>
        ensures bound { ReadsAtMost result buf.new }
        ensures bytes { ReadConsumes (Some (source_left self.old)) (Some (source_left self.new)) result buf.new }
        ensures cause { HasCause (source_faults self.old) (source_faults self.new) result }
        ensures counts { CountsFailures (source_faults self.old) (source_faults self.new) result }
        ensures step { source_plan self.new ≡ drop 1 (source_plan self.old) }
        ensures fails { IsErr result ↔ (slice_get (source_plan self.old) 0 ≡ Some Step.Fail) }
        ensures count { IfOk result (λ n. n ≡ let_through (slice_get (source_plan self.old) 0) (min (length buf.new) (length (source_left self.old)))) }
    {
        let step = next_step(self.plan.as_slice(), &mut self.used);
        let rest = &self.bytes.as_slice()[self.at..];
        let most = match step {
            Some(Step::Fail) => {
                self.faults = self.faults.saturating_add(1);
                return Err(Failed);
            }
            Some(Step::Take(most)) => most as usize,
            None => rest.len(),
        };
        let count = give(rest, buf, most);
        self.at += count;
        Ok(count)
    }
}

impl SteadySource {
    ghost use Rattle.abuf_io.specs.Memory.{steady_left};

    /// All of `bytes` are left. Takes no memory.
    pub fn new(bytes: List<u8>) -> SteadySource
        ensures { steady_left result ≡ bytes }
    {
        SteadySource { bytes, at: 0 }
    }
}

impl Source for SteadySource {
    ghost use Rattle.std.specs.Prelude.{Some, drop};

    ghost left = { λ s. Some (drop s.at s.bytes) };

    ghost faults = { λ s. 0 };

    fn read(&mut self, buf: &mut [u8]) -> Result<usize, Failed> {
        let rest = &self.bytes.as_slice()[self.at..];
        let count = give(rest, buf, rest.len());
        self.at += count;
        Ok(count)
    }
}

/// A sink over memory that has its room from the start. Its calls go by a plan: each uses one step,
/// and after the plan a call takes all, but no more than the room that is left. A call with bytes
/// where no room is left fails. Its count of faults is the number of the calls that failed.
#[derive(Drop)]
pub struct MemSink {
    bytes: Vec<u8>,
    room: u32,
    plan: List<Step>,
    used: usize,
    faults: u64,
    ghost planned: { used ≤ length plan },
    ghost is_plan: { IsPlan plan },
    ghost fits: { vec_len bytes ≤ room },
    ghost reserved: { room ≤ vec_capacity bytes },
}

impl MemSink {
    ghost use Rattle.abuf_io.specs.Memory.{sink_taken, sink_plan, sink_room, sink_faults};

    /// A sink that has taken nothing, and has room for `room` bytes, which it reserves.
    pub fn new(alloc: Global, room: u32, plan: List<Step>) -> Result<MemSink, NoMemory>
        requires { IsPlan plan }
        ensures { IfOk result (λ sink. (sink_taken sink ≡ []) × (sink_room sink ≡ room) × (sink_plan sink ≡ plan) × (sink_faults sink ≡ 0)) }
    {
        let bytes = Vec::with_capacity(alloc, room as usize)?;
        Ok(MemSink {
            bytes,
            room,
            plan,
            used: 0,
            faults: 0,
        })
    }

    /// What it took.
    pub fn taken(&self) -> &[u8]
        ensures { result.now ≡ sink_taken self.now }
    {
        &self.bytes
    }
}

impl Sink for MemSink {
    ghost use Rattle.std.specs.Prelude.{Some};
    ghost use Rattle.abuf_io.specs.Causes.{HasCause, CountsFailures, Rose};
    ghost use Rattle.abuf_io.specs.Memory.{sink_taken, sink_plan, sink_room, sink_faults};

    ghost taken = { λ s. Some (sink_taken s) };

    ghost faults = { λ s. s.faults };

    fn write(&mut self, bytes: &[u8]) -> Result<usize, Failed>
        ensures bound { WritesAtMost result bytes.now }
        ensures bytes { WriteAppends (Some (sink_taken self.old)) (Some (sink_taken self.new)) result bytes.now }
        ensures none { result ≡ Ok 0 → 0 < length bytes.now → Rose (sink_faults self.old) (sink_faults self.new) }
        ensures cause { HasCause (sink_faults self.old) (sink_faults self.new) result }
        ensures counts { CountsFailures (sink_faults self.old) (sink_faults self.new) result }
        ensures step { sink_plan self.new ≡ drop 1 (sink_plan self.old) }
        ensures fails { IsErr result ↔ ((slice_get (sink_plan self.old) 0 ≡ Some Step.Fail) ⊎ ((0 < length bytes.now) × (sink_room self.old ≡ 0))) }
        ensures count { IfOk result (λ n. n ≡ let_through (slice_get (sink_plan self.old) 0) (min (length bytes.now) (sink_room self.old))) }
    {
        let step = next_step(self.plan.as_slice(), &mut self.used);
        let room = self.room as usize - self.bytes.len();
        let most = match step {
            Some(Step::Take(most)) => most as usize,
            _ => bytes.len(),
        };
        let count = most.min(bytes.len().min(room));
        let failing = step == Some(Step::Fail) || (room == 0 && !bytes.is_empty());
        if failing || self.bytes.extend_from_slice(&bytes[..count]).is_err() {
            self.faults = self.faults.saturating_add(1);
            return Err(Failed);
        }
        Ok(count)
    }
}

/// A shelf over memory, some of whose calls fail. Its calls have the numbers from 0 up to
/// 4294967295, which each later call has too. Its count of faults is the number of the calls that
/// failed.
#[derive(Drop)]
pub struct MemShelf {
    pairs: List<(List<u8>, List<u8>)>,
    fails: List<u32>,
    calls: u64,
    faults: u64,
}

impl MemShelf {
    ghost use Rattle.abuf_io.specs.Memory.{shelf_pairs, shelf_fails, shelf_calls, shelf_faults};

    /// Under each name, the content of its first pair. The calls of the numbers in `fails` fail.
    /// Takes no memory.
    pub fn new(pairs: List<(List<u8>, List<u8>)>, fails: List<u32>) -> MemShelf
        ensures pairs { shelf_pairs result ≡ pairs }
        ensures fails { shelf_fails result ≡ fails }
        ensures calls { shelf_calls result ≡ 0 }
        ensures faults { shelf_faults result ≡ 0 }
    {
        MemShelf {
            pairs,
            fails,
            calls: 0,
            faults: 0,
        }
    }
}

impl Shelf for MemShelf {
    ghost use Rattle.abuf_io.specs.Causes.{next_count};
    ghost use Rattle.abuf_io.specs.Fetching.{HasFetchCause, CountsFailed, is_listed};
    ghost use Rattle.abuf_io.specs.Memory.{shelf_pairs, shelf_fails, shelf_calls, shelf_faults};

    ghost tells = { λ _. true };

    ghost holds = { λ s name. held s.pairs name };

    ghost calls = { λ s. s.calls };

    ghost faults = { λ s. s.faults };

    fn fetch(&mut self, alloc: Global, name: &[u8], limit: u64) -> Result<List<u8>, Fetch>
        ensures content { IsFetch true (held (shelf_pairs self.old) name.now) limit result }
        ensures holds { (other : Items ℕ) → held (shelf_pairs self.new) other ≡ held (shelf_pairs self.old) other }
        ensures calls { shelf_calls self.new ≡ next_count (shelf_calls self.old) }
        ensures cause { HasFetchCause (shelf_faults self.old) (shelf_faults self.new) result }
        ensures counts { CountsFailed (shelf_faults self.old) (shelf_faults self.new) result }
        ensures fails { (result ≡ Err Fetch.Failed) ↔ (is_listed (shelf_fails self.old) (shelf_calls self.old) ≡ true) }
        ensures planned { shelf_fails self.new ≡ shelf_fails self.old }
    {
        let number = self.calls.min(4294967295) as u32;
        self.calls = self.calls.saturating_add(1);
        if self.fails.as_slice().contains(&number) {
            self.faults = self.faults.saturating_add(1);
            return Err(Fetch::Failed);
        }
        copy(alloc, self.pairs.as_slice(), name, limit)
    }
}
