//! Depth peeling: the colours of samples without lists of fragments and without a pool, layer by layer.
//!
//! A `Layer` stands for the samples of a region. With each step every sample takes its next primitive: of those that cover
//! it, the lowest above the last one taken, by the depth key there and then by primitive number; and lays its paint over the
//! colour. By `laws::layers_law` n steps give the paints of the lowest n primitives, or of all where there are fewer.
//!
//! `peel` takes 16 layers at once until no sample has a primitive left, row by row, on threads, and offers a row no primitive
//! that its samples are done with. Its sums are those of the colours that the primitives alone give. A step takes no memory;
//! `start`, `sums` and `peel` do.
#![tactic(auto)]

mod for_users;
mod input;
pub mod laws;
mod layer;
mod offering;
mod sums;

pub use input::peeling::peel;
pub use layer::Layer;
