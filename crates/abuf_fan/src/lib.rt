//! Triangles drawn into the shared frame by many threads.
//!
//! `draw_all` draws every triangle of a list once, whatever the number of threads and however they run, and `draw_ordered` those
//! whose order of drawing was found before. The pass gets one new entry for each fragment of each triangle. If none is lost, the pixels
//! and words of the new entries are all these fragments in some order. Each worker has a pass of its own, split off from the caller's,
//! and draws chunks of 64 triangles whose numbers it takes from a `Desk` of `abuf_share` until there are no more. This crate exports
//! the desk too.
//!
//! Once all turns are joined, the numbers drawn are those from 0 on, each once, and one of them is beyond the chunks, so each chunk
//! was drawn by exactly one worker. No worker knows what another drew before that.
//!
//! `max_fragments` tells beforehand how many fragments there are at most, so that a frame needn't have more nodes than that.
//! `likely_fragments` guesses it in less time, where there are many triangles.
//!
//! Whether the workers run at the same time is not promised.
#![tactic(auto)]

mod bound;
mod chunk;
mod drawing;
mod gate;
mod meeting;
mod order;
mod work;

pub use abuf_share::{Desk, MAX_NUMBERS, Turn};
pub use bound::{likely_fragments, max_fragments};
pub use drawing::{draw_all, draw_ordered};
pub use gate::{Gate, OpenGate};
pub use meeting::MeetingGate;
pub use order::OrderedTriangles;
