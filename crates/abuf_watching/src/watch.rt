// What is watched.
ghost use Rattle.std.specs.Prelude.{◌*◌, ◌<◌, ◌≤◌, length, All};

use abuf_picture::{Primitives, Target};

/// A drawing that is watched.
#[derive(Clone, Copy)]
pub(crate) struct Watch<'a> {
    pub primitives: Primitives<'a>,
    /// What is drawn into, and by how many threads; the thread that watches is one more.
    pub target: Target,
    /// The places in the region of the pixels that are looked at: at least one.
    pub places: &'a [u32],
    pub ghost some: { 1 ≤ length places.now },
    pub ghost within: { All (λ p. p < target.region.w * target.region.h) places.now },
}
