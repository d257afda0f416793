//! One triangle drawn into the shared frame.
//!
//! `draw` adds one entry to the pass for each fragment of the triangle in the region, so the frame's counter grows by exactly as
//! many as there are. If none is lost, the pixels and words of the new entries are the fragments in some order. Any number of
//! threads may draw into one frame at a time, each by a pass of its own. A `Brush` draws one triangle after another, and keeps
//! its buffers. The calls wait for nobody, take no memory, and can't be refused.
#![tactic(auto)]

mod batch;
mod brush;
mod for_users;

pub use brush::Brush;
pub use for_users::draw;
