//! What is outside, as traits with a meaning: a [`Source`] has bytes left, a [`Shelf`] holds contents
//! under names, a [`Sink`] has taken bytes. Each has a count of faults, and says that it failed only
//! where that count rose.
//!
//! Over memory (`MemSource`, `MemShelf`, `MemSink`, and the `Steady` types, which never fail) the
//! meaning is told. The adapters over the real outside (`ReadSource`, `FolderShelf`, `WriteSink`)
//! tell nothing of content, and keep a count of faults. By clauses of their own `ReadSource` gives the
//! bytes of its reader, and what `WriteSink` takes goes to its writer, where std tells what these hold.
//!
//! [`read_all`] gives all that a source has left, and [`write_all`] makes a sink take all of some
//! bytes, or they answer a fault of which the count tells the cause.
#![tactic(auto)]

mod adapters;
mod folder;
mod memory;
mod memory_shelf;
mod outside;
mod plan;
mod whole;

pub use adapters::{ReadSource, WriteSink};
pub use folder::FolderShelf;
pub use memory::{MemShelf, MemSink, MemSource, SteadySource};
pub use memory_shelf::SteadyShelf;
pub use outside::{Failed, Fetch, Shelf, Sink, Source};
pub use plan::Step;
pub use whole::{ReadEnd, WriteFault, read_all, write_all};
