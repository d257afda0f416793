//! The shared frame of an A-buffer: one linked list of fragments for each pixel, built by many threads at once with atomic
//! steps (Carpenter 1984; Yang and others 2010), and its lists once the drawing is done.
//!
//! A `Frame` is one table of words: a counter of the numbers that were claimed, a head for each pixel, and a payload and a
//! next for each node. A `Pass` is the token of one drawer. It claims numbers out of its credit, each of which is an entry, and
//! takes an entry through its stages by one step each: it stores the payload, exchanges the pixel's head, and stores the next.
//! A number that has no node is lost, and the counter runs on, so that it tells how many nodes would have been enough. Threads
//! draw at the same time by passes that are split off and joined again; others may `count` and `look` while they draw. A whole,
//! settled pass closes the frame, which takes constant time, and a `Closed` frame has the lists. Threads share it, and each reads
//! them from the words that were drawn, by a `ListReader` of its own.
//!
//! `specs/Lawful.antt` says what holds between any two steps of any number of threads, and each call here is proved to keep
//! it. What the crates above need of it is in the contracts alone. Of a pass they have its frame, its credit, its entries as
//! pairs of pixel and payload (`Draws`), what it was told and what it has seen. Of a closed frame they have that each list is a
//! permutation of the payloads of the entries at its pixel, in the order of the walk along their old heads
//! (`specs/Chains.antt`). No entry is lost if there are no more of them than nodes. No call waits, and none between `start` and
//! `list` takes memory.
//!
//! Not promised are which of two threads comes first, and so where their entries stand in a list, and which entries are linked
//! where some are lost.
#![tactic(auto)]

mod closed;
mod for_users;
mod frame;
mod frozen_words;
mod initial_words;
mod look;
mod pass;
mod reader;
mod rule;
mod steps;
mod view;

pub use closed::{Closed, Full};
pub use frame::Frame;
pub use initial_words::InitialWords;
pub use look::Look;
pub use pass::Pass;
pub use reader::ListReader;
