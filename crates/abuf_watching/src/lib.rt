//! Watches a drawing: a scene is drawn into one frame on all threads but one, and that one looks at 64 pixels meanwhile, over and
//! over, by a pass of its own.
//!
//! [`run`] reads the words of `abuf render`, the scene and its libraries, and gives the report of the drawing, which is the same for
//! every number of threads and however they run, and how the looks ended, which differs from run to run. `specs/Report.antt` has the
//! report, and `specs/Watching.antt` what the looks passed.
#![tactic(auto)]

mod grid;
mod load;
mod looking;
mod looks;
mod report;
mod running;
mod show;
mod sighting;
mod signal;
mod stop;
#[cfg(test)]
mod tests;
mod watch;
mod watching;

pub use looks::Looks;
pub use running::run;
pub use show::WatchOutput;
pub use stop::Stop;
