//! A picture: primitives drawn into the frame of a region of pixels, which is closed and resolved to the sums of its samples.
//!
//! What is drawn are [`Primitives`], and a [`Target`] is what they are drawn into: the pixels, where the samples lie, what is
//! laid under them, how many fragments the pool has room for, and on how many threads. [`draw`] gives the closed frame,
//! [`redraw`] the same in the memory of an earlier one, [`draw_and_look`] what a reader sees of one pixel before the closing
//! besides, and [`resolve_drawn`] the sums. [`draw_and_resolve`] draws and resolves together, by any way to [`Resolve`]; that of
//! this renderer is [`Compositing`]. What the frame has to hold is `specs/Picture.antt`, and what is made of its lists
//! `specs/Resolving.antt`.
#![tactic(auto)]

mod drawing;
mod pixel_view;
mod primitives;
mod redrawing;
mod rendering;
mod resolving;
mod target;

pub use drawing::draw;
pub use pixel_view::{PixelView, draw_and_look};
pub use primitives::Primitives;
pub use redrawing::redraw;
pub use rendering::{Rendering, draw_and_resolve};
pub use resolving::{Compositing, Resolve, compositing_law, resolve_drawn};
pub use target::Target;
