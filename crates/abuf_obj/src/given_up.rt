// Why no scene comes of the pieces of a file.
use crate::fault::ObjFault;
use abuf_num::NoMemory;
use std::alloc::{AllocError, AllocFailed};

/// Reading in pieces was given up: a line is at fault, a limit was met, or memory ran out. Which of them it was, and on which line,
/// is for the reading on one thread to find out.
#[derive(Clone, Copy, Debug, PartialEq, Eq)]
pub struct GivenUp;

impl From<NoMemory> for GivenUp {
    fn from(_: NoMemory) -> Self {
        GivenUp
    }
}

impl From<ObjFault> for GivenUp {
    fn from(_: ObjFault) -> Self {
        GivenUp
    }
}

impl From<AllocError> for GivenUp {
    fn from(_: AllocError) -> Self {
        GivenUp
    }
}

impl<T: Drop> From<AllocFailed<T>> for GivenUp {
    fn from(_: AllocFailed<T>) -> Self {
        GivenUp
    }
}
