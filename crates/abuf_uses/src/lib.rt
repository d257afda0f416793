//! Callers of the crates.
#![tactic(auto)]

mod coverage;
mod drawing;
mod fault;
mod image;
mod layers;
mod running;
#[cfg(test)]
mod tests;
mod view;

pub use coverage::masks_of;
pub use drawing::{draw_at_once, lists_of};
pub use fault::NoImage;
pub use image::{image_of, render};
pub use layers::lowest_layers;
pub use running::{Answer, carry_out};
pub use view::seen_by;
