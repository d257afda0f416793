// Calls for users of the crate, which the program doesn't use.
// A gate at which workers meet.
use crate::Gate;
use abuf_frame::Pass;
use abuf_num::NoMemory;
use std::alloc::Global;
use std::sync::atomic::{AtomicBool, AtomicU32, AtomicU64, Ordering};
use std::thread::yield_now;

/// What one worker leaves for the others to see.
#[derive(Drop)]
struct WorkerState {
    calls: AtomicU32,
    credit: AtomicU64,
    drew: AtomicBool,
    met: AtomicBool,
}

impl WorkerState {
    fn new() -> WorkerState {
        WorkerState {
            calls: AtomicU32::new(0),
            credit: AtomicU64::new(0),
            drew: AtomicBool::new(false),
            met: AtomicBool::new(false),
        }
    }
}

/// A gate for tests of workers that draw at once: each of them draws its first chunk, and goes on once it sees that all others have
/// drawn theirs, so that none takes a second chunk before. That a worker has drawn its chunk is told from the credit of its pass,
/// which is less by as many fragments at its second call than at its first. A worker that doesn't see another looks for it during
/// 2^32 loads, which take some 20 seconds, and goes on.
#[derive(Drop)]
pub struct MeetingGate {
    chunk: u64,
    /// How long a worker looks for another.
    loads: u32,
    states: Vec<WorkerState>,
    /// A call came that none of the workers makes when it draws its chunk.
    fault: AtomicBool,
}

/// Looks for a flag, for so many loads at most. On a machine with more to do, whoever is to raise it needs the processor too, so
/// this thread often yields it.
fn look_for(flag: &AtomicBool, loads: u32) -> bool {
    for turn in 0..loads {
        if flag.load(Ordering::SeqCst) {
            return true;
        }
        if turn % 64 == 0 {
            yield_now();
        }
    }
    false
}

impl MeetingGate {
    /// A gate of so many workers, each of which is to draw so many fragments in its first chunk.
    pub fn new(alloc: Global, workers: u32, chunk: u64) -> Result<MeetingGate, NoMemory> {
        MeetingGate::with_loads(alloc, workers, chunk, u32::MAX)
    }

    /// A gate whose workers look for each other during at most so many loads.
    pub fn with_loads(
        alloc: Global,
        workers: u32,
        chunk: u64,
        loads: u32,
    ) -> Result<MeetingGate, NoMemory> {
        let mut states = Vec::new(alloc);
        for _ in 0..workers {
            states.push(WorkerState::new())?;
        }
        Ok(MeetingGate {
            chunk,
            loads,
            states,
            fault: AtomicBool::new(false),
        })
    }

    /// Whether each worker has drawn its chunk and seen that all others had drawn theirs. False if another worker called, if one
    /// called a third time, or if one drew more or fewer fragments.
    pub fn have_met(&self) -> bool {
        let sound = !self.fault.load(Ordering::SeqCst);
        sound
            && self
                .states
                .iter()
                .all(|state| state.met.load(Ordering::SeqCst))
    }

    /// Whether this is the first call of one of the workers, or the second after it drew its chunk. There it waits for the others.
    fn accepts(&self, worker: usize, credit: u64) -> bool {
        let Some(own) = self.states.get(worker) else {
            return false;
        };
        match own.calls.fetch_add(1, Ordering::SeqCst) {
            0 => own.credit.store(credit, Ordering::SeqCst),
            1 => {
                if own.credit.load(Ordering::SeqCst).checked_sub(self.chunk) != Some(credit) {
                    return false;
                }
                own.drew.store(true, Ordering::SeqCst);
                let all = self
                    .states
                    .iter()
                    .all(|state| look_for(&state.drew, self.loads));
                own.met.store(all, Ordering::SeqCst);
            }
            _ => return false,
        }
        true
    }
}

impl Gate for MeetingGate {
    fn pass_by(&self, worker: u32, pass: &Pass) {
        if !self.accepts(worker as usize, pass.credit()) {
            self.fault.store(true, Ordering::SeqCst);
        }
    }
}
