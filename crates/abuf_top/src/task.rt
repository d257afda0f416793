// What is to be done, once all that a run reads is read.
use crate::commands::sequence::Images;
use crate::drawing::Drawing;

/// What is to be drawn and written.
#[derive(Drop)]
pub enum Task {
    /// One drawing, and one output.
    Draw(Drawing),
    /// An image for each shot of a path.
    Sequence(Images),
}
