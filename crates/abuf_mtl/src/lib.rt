//! Materials by their names, read from Wavefront MTL libraries.
//!
//! [`Materials`] stand for a list of libraries without a fault (`specs/StandsFor.antt`): the names of
//! their `newmtl` lines, each with the paint of its last one (`specs/Material.antt`). [`read_mtl`] makes
//! them stand for one library more, or returns that library's first fault (`specs/Fault.antt`) and
//! changes nothing.
#![tactic(auto)]

mod colour;
mod fault;
mod keyword;
mod materials;
mod reader;

pub use fault::{MtlFault, MtlWhy};
pub use materials::{Materials, materials_law, read_mtl};
