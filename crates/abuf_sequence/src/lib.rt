//! A sequence of images of one scene, one image for each shot of a path.
//!
//! [`read_path`] reads the shots, or names the first line that is refused (`specs/Paths.antt`). [`sequence`] draws the images of
//! the shots, as many at once as there are threads and memory for, and writes them in order; `specs/Sequences.antt` says what the
//! images are, which of them are written, and what is returned.
#![tactic(auto)]

mod fault;
mod image;
mod job;
mod path;
mod plan;
mod subject;
mod writing;

pub use fault::SequenceFault;
pub use path::{PathFault, PathWhy, Shot, read_path};
pub use plan::Plan;
pub use writing::{sequence, sequence_flat};
