//! The words of the command line.
//!
//! [`read_words`] gives the job that the words ask for, by `specs/Jobs.antt`, or the first refusal. The first
//! word names the command, and is read here. `clap` reads which options and positional values come after it and their
//! texts; every form, range and default is read here.
#![tactic(auto)]

mod job;
mod options;
mod parsing;
mod settings;
mod splits;
mod values;

pub use job::{Command, Job, Opt, Storage, What, WordFault, read_words};
