//! Scenes in Wavefront OBJ, as far as an A-buffer renderer reads them.
//!
//! [`read_obj`] gives the points, the faces and the names of materials and libraries that the lines of
//! a file define, or its first fault. Its contract also says what every crate above may rest on. Each
//! face has at least three corners, each corner is a point, and each name number is that of a name.
//! Every coordinate is at most 2147483647 either way, and all fans together have at most 1048576 triangles.
//!
//! [`read_flat`] gives the same with the corners of all faces in one list, which takes half the memory, and no call of the allocator
//! for each face.
//!
//! [`read_obj_on_threads`] gives what `read_flat` gives, and sooner for a large file. The file is cut in two at the end of a line,
//! over and over, until there is a piece for each thread. What stands above a piece is found first, from the keywords of the lines
//! before it: how many lines and points, and which names. So each piece is read with the numbers of its lines and the places of its
//! points and names in the whole file.
#![tactic(auto)]

mod corners;
mod element;
mod face;
mod faces;
mod fault;
mod given_up;
mod keyword;
mod pieces;
mod points;
mod reader;
mod scene;
mod split;
mod tally;
mod threads;

pub use face::{Face, FaceRef};
pub use faces::FaceSlice;
pub use fault::{ObjFault, Why};
pub use given_up::GivenUp;
pub use scene::{FlatObj, Obj, read_flat, read_obj};
pub use threads::{read_in_pieces, read_obj_on_threads};
