// What a worker is given for an image, and what it hands back.
use crate::fault::ImageFault;
use crate::path::Shot;
use abuf_frame::Closed;
use abuf_num::List;

/// A shot whose image is to be drawn, and the frame of an earlier image, if there is one, which may serve for this one.
#[derive(Drop)]
pub(crate) struct Job {
    pub(crate) shot: Shot,
    pub(crate) kept: Option<Closed>,
}

/// An image that was drawn, or why it wasn't, and the frame into which it was drawn, which may serve for another.
#[derive(Drop)]
pub(crate) struct Drawn {
    pub(crate) image: Result<List<u8>, ImageFault>,
    pub(crate) kept: Option<Closed>,
}
