// Calls for users of the crate, which the program doesn't use.
ghost use Rattle.std.specs.Prelude.{◌≡◌, ℕ, ◌*◌, ◌<◌, ◌≤◌, true, false, length, slice_index, IfOk};
ghost use Rattle.std.specs.List.{All};
ghost use Rattle.std.specs.List.Sorted.{IsNonDecreasing};
ghost use Rattle.abuf_num.specs.declared.limits.TheConstants.{MAX_PRIMITIVES, MAX_THREADS};
ghost use Rattle.abuf_raster.specs.Samples.{offsets_of};
ghost use Rattle.abuf_resolve.specs.Sums.{IsSmall};
ghost use Rattle.abuf_resolve.specs.Words.{folded, frame_sums, hides, AreFragmentLists, IsDepthWord};

use crate::fold::{composite_all, hides};
use crate::planes::Planes;
use crate::shading::Shading;
use crate::shading::threads::resolve_counted;
use abuf_frame::Closed;
use abuf_num::{List, NoMemory, Paint, PixelSum};
use abuf_raster::{Pattern, Region, ScreenTri};
use std::alloc::Global;
use std::thread::Threads;

/// The colour of a sample: from the background on, the paint of every word is laid over, in order. A word is a depth key
/// times 2^24 plus the number of a primitive that has a paint; the words ascend.
pub fn sample_colour(sorted: &[u64], paints: &[Paint], background: [u16; 3]) -> [u16; 3]
    requires words { All (IsDepthWord (length paints.now)) sorted.now }
    requires ascending { IsNonDecreasing sorted.now }
    ensures { result ≡ folded background paints.now sorted.now }
{
    let first = first_seen(sorted, paints);
    composite_all(background, &sorted[first..], paints)
}

/// The place of the last word whose paint hides what lies under it, or 0: nothing below it is seen.
fn first_seen(words: &[u64], paints: &[Paint]) -> usize
    requires words { All (IsDepthWord (length paints.now)) words.now }
    ensures within { result ≤ length words.now }
    ensures hidden { 0 < result → (result < length words.now) × (hides paints.now (slice_index words.now result) ≡ true) }
    ensures last { (k : ℕ) → result < k → k < length words.now → hides paints.now (slice_index words.now k) ≡ false }
{
    for i in (0..words.len()).rev() {
        if hides(words[i], paints) {
            return i;
        }
    }
    0
}

/// The sums alone, as [`resolve_counted`](crate::resolve_counted) gives them, from triangles that weren't made ready before. Each
/// payload is the word of a fragment of one of these triangles, and its mask has only samples that the triangle covers in that pixel.
pub fn resolve<R: Threads + Sync>(
    rt: &R,
    alloc: Global,
    closed: &Closed,
    region: Region,
    tris: &[ScreenTri],
    paints: &[Paint],
    pattern: Pattern,
    background: [u16; 3],
    threads: u32,
) -> Result<List<PixelSum>, NoMemory>
    requires not_full { closed.now.fragments ≤ closed.now.nodes }
    requires threads { (1 ≤ threads) × (threads ≤ MAX_THREADS) }
    requires pixels { length closed.now.lists ≡ region.w * region.h }
    requires few { length tris.now ≤ MAX_PRIMITIVES }
    requires paints { length paints.now ≡ length tris.now }
    requires words { AreFragmentLists (offsets_of pattern) tris.now region closed.now.lists }
    ensures value { IfOk result (λ sums. sums ≡ frame_sums (offsets_of pattern) background tris.now paints.now region closed.now.lists) }
    ensures small { IfOk result (λ sums. All (IsSmall (length (offsets_of pattern))) sums) }
{
    let shading = Shading {
        planes: Planes::new(rt, alloc, tris, threads)?,
        paints,
        pattern,
        background,
    };
    let all = resolve_counted(rt, alloc, closed, region, &shading, threads)?;
    Ok(all.sums)
}
