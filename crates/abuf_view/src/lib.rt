//! The camera: the primitives of a scene's triangles on its screen.
#![tactic(auto)]

mod camera;
mod checked_camera;
mod chunks;
mod eye;
mod flat_scene;
pub mod laws;
mod near_plane;
mod palette;
mod point;
mod point_table;
mod primitive_lists;
mod projection;
mod quaternion;
mod room;
mod scenes;
mod screen;
mod short_points;
mod threads;
mod turns;

pub use camera::{Camera, Lens};
pub use eye::EyePoint;
pub use flat_scene::FlatScene;
pub use near_plane::EyeTriangle;
pub use projection::Projected;
pub use room::Room;
pub use scenes::project;
pub use turns::turn_from;
