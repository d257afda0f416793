//! Lines, statements and names of the text files that `abuf` reads.
//!
//! OBJ, MTL and every other file of lines share these definitions: what a line is ([`Lines`]), what it
//! says ([`Statement`]), the one name that it carries ([`rest`]), and a table of names ([`Names`]). Each
//! iterator is seen as the list of the items that are left, so a reader above reasons about lists alone.
#![tactic(auto)]

mod lines;
mod names;
mod spaces;
mod statement;

pub use lines::Lines;
pub use names::Names;
pub use spaces::rest;
pub use statement::Statement;
