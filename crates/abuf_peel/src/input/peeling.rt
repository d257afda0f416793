// The sums of all pixels, peeled chunk by chunk on threads.
ghost use Rattle.std.specs.Prelude.{◌≡◌, ℕ, ◌*◌, ◌<◌, ◌≤◌, length, slice_index_or, IfOk};
ghost use Rattle.std.specs.List.{All};
ghost use Rattle.abuf_num.specs.declared.limits.TheConstants.{MAX_THREADS};
ghost use Rattle.abuf_raster.specs.Region.{IsImageSize, whole_image};
ghost use Rattle.abuf_raster.specs.Samples.{offsets_of};
ghost use Rattle.abuf_resolve.specs.Sums.{region_sums, IsSmall};
ghost use Rattle.abuf_peel.specs.Rows.{AreChunks, AreSums, chunk_count, chunk_rows};

use crate::input::PeelInput;
use abuf_num::{List, NoMemory, PixelSum};
use abuf_raster::Pattern;
use abuf_share::map_numbered;
use abuf_view::Projected;
use std::alloc::Global;
use std::thread::Threads;

impl<'a, 'b> PeelInput<'a, 'b> {
    /// The sums of all chunks put together.
    fn put_together(
        &self,
        alloc: Global,
        chunks: &[List<PixelSum>],
    ) -> Result<List<PixelSum>, NoMemory>
        requires { AreChunks self.now chunks.now }
        ensures { IfOk result (AreSums self.now 0 self.now.height) }
    {
        let mut sums = Vec::with_capacity(alloc, (self.width * self.height) as usize)?;
        for chunk in chunks {
            sums.extend_from_slice(chunk.as_slice())?;
        }
        Ok(List::from_vec(sums))
    }
}

/// For each pixel of an image, in order, the sums over the samples of the pattern: per channel the sum of the samples' colours.
/// The image is 1 to `MAX_SIDE` pixels wide and high, with at most `MAX_PIXELS` in all. Each row is a layer of its own, which takes
/// primitives until none is left. Chunks of 4 rows are shared among 1 to 64 threads, and the sums are the same for every number of
/// them. An error means that memory ran out.
pub fn peel<R: Threads + Sync>(
    rt: &R,
    alloc: Global,
    projected: &Projected,
    width: u32,
    height: u32,
    pattern: Pattern,
    background: [u16; 3],
    threads: u32,
) -> Result<List<PixelSum>, NoMemory>
    requires size { IsImageSize width height }
    requires threads { (1 ≤ threads) × (threads ≤ MAX_THREADS) }
    ensures value { IfOk result (λ sums. sums ≡
        region_sums (offsets_of pattern) background projected.now.tris projected.now.paints (whole_image width height)) }
    ensures small { IfOk result (λ sums. All (IsSmall (length (offsets_of pattern))) sums) }
{
    let input = PeelInput {
        tris: projected.tris.as_slice(),
        paints: projected.paints.as_slice(),
        width,
        height,
        pattern,
        background,
    };
    let chunks = map_numbered(
        rt,
        alloc,
        height.div_ceil(4),
        threads,
        &|n: u32| -> Result<List<PixelSum>, NoMemory>
            requires { n < chunk_count input.height }
            ensures { IfOk result (AreSums input.entry (4 * n) (chunk_rows input.entry.height n)) }
        { input.chunk_sums(alloc, n) },
    )?;
    input.put_together(alloc, &chunks)
}
