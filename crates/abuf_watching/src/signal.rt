// What the watcher and the drawers tell each other.
use abuf_fan::Gate;
use abuf_frame::Pass;
use std::sync::atomic::{AtomicBool, Ordering};
use std::thread::yield_now;

/// For how many turns a worker waits for the watcher at most.
const TURNS: u32 = 1 << 20;

/// Whether the watcher has begun, and whether the drawing has ended. As a gate it holds each worker until the watcher has begun, or
/// for some milliseconds.
#[derive(Drop)]
pub(crate) struct Signal {
    begun: AtomicBool,
    ended: AtomicBool,
}

impl Signal {
    pub(crate) fn new() -> Signal {
        Signal {
            begun: AtomicBool::new(false),
            ended: AtomicBool::new(false),
        }
    }

    pub(crate) fn begin(&self) {
        self.begun.store(true, Ordering::SeqCst);
    }

    pub(crate) fn end(&self) {
        self.ended.store(true, Ordering::SeqCst);
    }

    pub(crate) fn has_ended(&self) -> bool {
        self.ended.load(Ordering::SeqCst)
    }
}

impl Gate for Signal {
    fn pass_by(&self, _worker: u32, _pass: &Pass) {
        for turn in 0..TURNS {
            if self.begun.load(Ordering::SeqCst) {
                return;
            }
            if turn % 64 == 0 {
                yield_now();
            }
        }
    }
}
