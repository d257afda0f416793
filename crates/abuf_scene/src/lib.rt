//! The triangles of a scene, from its faces and its materials, and the demonstration scene.
//!
//! [`assemble`] turns each face into a fan of triangles with the paint of its material. Its contract gives
//! the camera exactly the triangles of the definition, or the line of the first face whose name has no
//! material.
#![tactic(auto)]

mod assembly;
mod demo;
mod short_texts;
mod triangle_fans;
mod triangles;

pub use assembly::{SceneFault, assemble};
pub use demo::{Made, make};
pub use triangle_fans::{fan_triangle, paint_of};
pub use triangles::{Scene, Triangle};
