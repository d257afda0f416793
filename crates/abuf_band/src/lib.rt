//! An image drawn band by band. Each band has a frame of its own pixels, one after another, so that a pool which is too small
//! for all fragments of an image at once can still draw it.
//!
//! [`render_bands`] gives the sums of all pixels, or names the first band that is full. `specs/Bands.antt` says which rows a
//! band has.
#![tactic(auto)]

mod bands;
mod fault;
pub mod laws;
mod rendering;

pub use fault::BandFault;
pub use rendering::render_bands;
