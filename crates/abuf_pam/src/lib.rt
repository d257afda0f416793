//! An image as the bytes of Netpbm PAM.
//!
//! The crates above hand in the sums of the samples of each pixel, and get the header and the values as the format
//! defines them, whole, in memory.
#![tactic(auto)]

mod header;
mod image;
mod pixels;

pub use image::image_bytes;
pub use pixels::pixel_size;
