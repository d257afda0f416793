//! Work shared among threads, as jobs or by numbers.
//!
//! A [`Desk`] deals numbers out: no two turns get the same number, and once all turns are joined, the numbers drawn are those
//! from 0 on, each once. [`map_numbered`] calls a function for each number below a count on 1 to 64 threads, which draw the numbers
//! from a desk, and gives the results by ascending number. [`map_jobs`] calls a function for each of a few jobs, each on a
//! thread of its own.
//!
//! Threads take numbers one at a time because fixed shares take unequal time. The primitives often lie in the middle of an image. A
//! system may also start two threads on one processor and leave another idle. Then all would wait for the last share. By the
//! theorem of the desk each number is drawn once, so no result is lacking, and nothing is checked or done again at the end.
#![tactic(auto)]

mod desk;
mod jobs;
mod numbered;
mod rule;

pub use desk::{Desk, MAX_NUMBERS, Turn};
pub use jobs::map_jobs;
pub use numbered::map_numbered;
