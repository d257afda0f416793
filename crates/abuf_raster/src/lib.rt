//! Rasterization of triangles on the screen: which samples of a pixel a triangle covers, by the top-left rule of
//! Direct3D 11, and how near it is there.
//!
//! `mask_at` and `depth_at` equal the definitions of the coverage mask and of the depth key at a covered sample. A
//! `DepthPlane`, made once a triangle, gives the same keys, and bounds of all keys in a pixel, without a division. `pack` makes
//! a word of a fragment, and `unpack` gives it back; words ascend with the primitive number and then the mask.
//!
//! A `TileWalk` gives exactly the fragments of one triangle in a region, each once, in an order that is not promised;
//! `TileHits` hands them out by whole tiles. `laws` tells what follows from the definitions: of two triangles on either side of
//! an edge, no sample is covered by both.
//!
//! Positions are in 1/256 pixel; x grows to the right, and y grows downwards. No call takes memory.
#![tactic(auto)]

mod bounding_box;
mod edge;
mod for_users;
mod fragment;
mod hit_counts;
pub mod laws;
mod pattern;
mod plane;
mod point;
mod region;
mod setup;
mod stepping;
mod tile;
mod tile_hits;
mod tiles;
mod triangle;
mod width;

pub use bounding_box::{meets, upper_left};
pub use for_users::{TileWalk, mask_at};
pub use fragment::{Fragment, pack, unpack};
pub use hit_counts::{count_hits, max_hits};
pub use pattern::Pattern;
pub use plane::DepthPlane;
pub use point::Point;
pub use region::{Hit, NO_HIT, Region, region_law};
pub use tile_hits::TileHits;
pub use triangle::ScreenTri;
pub use triangle::depth::{depth_at, depth_bounds};
