//! Compositing: the colours of a pixel's samples, from the words of its fragments.
//!
//! `over` is the operator of Porter and Duff in whole numbers. `sample_colour` folds the fragments of one sample, in the order
//! of their words, over the background. `resolve` gives the sums over the samples for each pixel of a closed frame, on threads,
//! with the fragments ordered in each sample by the depth there. The sums don't depend on the number of threads, nor on the order
//! of the lists.
//!
//! `laws` ties that to the definition of a sample's colour, which speaks of the primitives alone. By `list_law` the words of
//! all fragments at a pixel, given in any order, give the colour of each sample. By `words_law` and `sums_law` a frame into
//! which all fragments of a region were drawn, in any order, resolves to the sums of the colours. By `pixel_law` the words of a
//! pixel unpack to its fragments, and by `lengths_law` a list of such a frame is as long as there are primitives that cover a
//! sample of its pixel. Only resolving and the planes take memory.
#![tactic(auto)]

mod colour_sum;
mod fold;
mod for_users;
mod fragment_words;
pub mod laws;
mod order;
mod planes;
mod sample_hits;
mod shading;

pub use fold::{composite_over, over};
pub use for_users::{resolve, sample_colour};
pub use fragment_words::{FragmentWord, SampleWord};
pub use planes::Planes;
pub use shading::pixels::plus;
pub use shading::spans::Resolved;
pub use shading::threads::resolve_counted;
pub use shading::{Pixel, Shading};
