//! The top call: from the words of a command line and the bytes of a scene to the bytes of an image, to the fragments of a
//! pixel, or to the summary of a demonstration.
//!
//! [`run`] has the contract that the whole program rests on. What it returns follows the verdict (`specs/Verdict.antt`), a chain
//! of verdicts in the order of refusals. `specs/Table.antt` says what each status means for what was written, and
//! `specs/Output.antt` what is written. `specs/Image.antt` says what the image is, sample by sample, and `specs/Fetches.antt` how
//! often the shelf is asked. [`start`] is all that the program does: its contract is that of `run` on the words that the arguments
//! of a process give.
#![tactic(auto)]

mod commands;
mod demonstration;
mod drawing;
mod image;
mod libraries;
mod load;
mod loaded;
mod outcome;
mod output;
mod prepare;
mod process;
mod report;
mod status;
mod stop;
mod summary;
mod task;
mod top;
mod whole;

pub use process::start;
pub use status::Status;
pub use stop::{FullPool, Refusal, Stop};
pub use top::{Ran, run, run_with};
