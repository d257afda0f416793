// What the images of a sequence have in common.
use abuf_raster::Pattern;

/// How each image of a sequence is drawn, whatever its shot.
#[derive(Clone, Copy)]
pub struct Plan {
    /// The width of an image in pixels, from 1 to 4096.
    pub width: u32,
    /// The height in pixels, from 1 to 4096. An image has at most 4194304 pixels.
    pub height: u32,
    /// The focal length, from 1 to 1048576, in units of 1/65536.
    pub focal: i64,
    /// The near distance, from 4096 to 2147483647, in units of 1/65536.
    pub near: i64,
    /// Where the samples of a pixel lie.
    pub pattern: Pattern,
    /// The colour under all primitives, each channel from 0 to 65535.
    pub background: [u16; 3],
    /// The number of fragments that the pool of each image has room for, from 1 to 8388608.
    pub nodes: u32,
    /// The number of threads that draw and resolve, from 1 to 64.
    pub threads: u32,
    /// The greatest value in an image: 255 or 65535.
    pub maxval: u32,
}
