// What is drawn into.
ghost use Rattle.std.specs.Prelude.{◌≤◌};
ghost use Rattle.abuf_num.specs.declared.limits.TheConstants.{MAX_NODES, MAX_THREADS};

use abuf_raster::{Pattern, Region};

/// The pixels of a picture, and how they are drawn.
#[derive(Clone, Copy)]
pub struct Target {
    /// The pixels of the picture.
    pub region: Region,
    /// Where the samples of a pixel lie.
    pub pattern: Pattern,
    /// The colour under all primitives, each channel from 0 to 65535.
    pub background: [u16; 3],
    /// The number of fragments that the pool has room for, from 1 to `MAX_NODES`.
    pub nodes: u32,
    /// The number of threads that draw and resolve, from 1 to `MAX_THREADS`.
    pub threads: u32,
    pub ghost nodes_within: { (1 ≤ nodes) × (nodes ≤ MAX_NODES) },
    pub ghost threads_within: { (1 ≤ threads) × (threads ≤ MAX_THREADS) },
}
