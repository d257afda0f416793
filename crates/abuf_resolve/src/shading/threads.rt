// The sums of all pixels, on threads.
ghost use Rattle.std.specs.Prelude.{◌≡◌, ℕ, ◌-◌, ◌*◌, ◌<◌, ◌≤◌, min, length, map, IfOk};
ghost use Rattle.std.specs.List.{range_with_len, All};
ghost use Rattle.abuf_num.specs.declared.limits.TheConstants.{MAX_PIXELS, MAX_THREADS};
ghost use Rattle.abuf_raster.specs.Samples.{offsets_of};
ghost use Rattle.abuf_resolve.specs.Lengths.{maximum};
ghost use Rattle.abuf_resolve.specs.Spans.{AreSpans, AreSpanSums, CanRead, IsSpan};
ghost use Rattle.abuf_resolve.specs.Shading.{sums_of};
ghost use Rattle.abuf_resolve.specs.Sums.{IsSmall};
ghost use Rattle.abuf_resolve.specs.Words.{AreFragmentLists};
ghost use Rattle.abuf_share.specs.declared.desk.TheConstants.{MAX_NUMBERS};

use crate::shading::Shading;
use crate::shading::spans::{Resolved, Span};
use abuf_frame::Closed;
use abuf_num::{List, NoMemory};
use abuf_raster::Region;
use abuf_share::{MAX_NUMBERS, map_numbered};
use std::alloc::Global;
use std::thread::Threads;

/// About how many spans of pixels a worker takes, so that all end at about the same time.
const SPANS_A_THREAD: u32 = 16;

/// The most pixels of a span, but where two rows are longer.
const MAX_SPAN: u32 = 4096;

/// The least number of pairs of rows for each worker.
const PAIRS_A_THREAD: u32 = 4;

/// How many pixels a line has, where pixels are read by pairs of lines: those of a row, since pixels that lie above each other have many
/// nodes near each other, or fewer where there would be too few pairs of rows. Eight pixels of a line are read together.
fn line_length(region: Region, threads: u32) -> u32
    requires threads { (1 ≤ threads) × (threads ≤ MAX_THREADS) }
    ensures some { 1 ≤ result }
    ensures few { result ≤ MAX_PIXELS }
{
    let row = 8 * region.w().div_ceil(8);
    let share = region.pixels() / threads;
    if threads == 1 || 2 * row * PAIRS_A_THREAD <= share {
        row
    } else {
        row.min(8 * (share / SPANS_A_THREAD).div_ceil(16).max(1))
    }
}

/// How many pixels each span has but the last: whole pairs of lines.
fn span_size(region: Region, line: u32, threads: u32) -> u32
    requires line { (1 ≤ line) × (line ≤ MAX_PIXELS) }
    requires threads { (1 ≤ threads) × (threads ≤ MAX_THREADS) }
    ensures some { 1 ≤ result }
    ensures few { region.w * region.h ≤ result * MAX_NUMBERS }
{
    let pixels = region.pixels();
    let wanted = (pixels / (SPANS_A_THREAD * threads)).min(MAX_SPAN);
    let least = wanted.max(pixels.div_ceil(MAX_NUMBERS));
    least.max(1).div_ceil(2 * line) * (2 * line)
}

/// How many spans of this size the pixels of a region make.
fn span_count(region: Region, size: u32) -> u32
    requires some { 1 ≤ size }
    requires few { region.w * region.h ≤ size * MAX_NUMBERS }
    ensures few { result ≤ MAX_NUMBERS }
    ensures all { region.w * region.h ≤ size * result }
    ensures some { (k : ℕ) → k < result → size * k < region.w * region.h }
{
    region.pixels().div_ceil(size)
}

/// The pixels of the span with this number, where spans have this size.
fn span_of(region: Region, size: u32, number: u32) -> Span
    requires { size * number < region.w * region.h }
    ensures from { result.from ≡ size * number }
    ensures count { result.count ≡ min size (region.w * region.h - size * number) }
{
    let from = size * number;
    Span {
        from,
        count: size.min(region.pixels() - from),
    }
}

impl<'a, 'b> Shading<'a, 'b> {
    /// The sums of all pixels, from those of all spans in order.
    fn joined(
        &self,
        alloc: Global,
        closed: &Closed,
        region: Region,
        size: u32,
        spans: &[Resolved],
    ) -> Result<Resolved, NoMemory>
        requires all { region.w * region.h ≤ size * length spans.now }
        requires spans { AreSpans self.now region closed.now.lists size spans.now }
        ensures { IfOk result (AreSpanSums self.now region closed.now.lists (range_with_len 0 (region.w * region.h))) }
    {
        let mut sums = Vec::with_capacity(alloc, region.pixels() as usize)?;
        let mut longest = 0;
        for span in spans {
            sums.extend_from_slice(span.sums.as_slice())?;
            longest = longest.max(span.longest);
        }
        Ok(Resolved {
            sums: List::from_vec(sums),
            longest,
        })
    }

    /// The sums of all pixels, by this number of workers. What one worker sums alone isn't copied.
    fn shared<R: Threads + Sync>(
        &self,
        rt: &R,
        alloc: Global,
        closed: &Closed,
        region: Region,
        threads: u32,
    ) -> Result<Resolved, NoMemory>
        requires threads { (1 ≤ threads) × (threads ≤ MAX_THREADS) }
        requires pixels { length closed.now.lists ≡ region.w * region.h }
        requires words { AreFragmentLists (offsets_of self.now.pattern) self.now.planes region closed.now.lists }
        ensures { IfOk result (AreSpanSums self.now region closed.now.lists (range_with_len 0 (region.w * region.h))) }
    {
        let pixels = closed.pixels();
        let line = line_length(region, threads);
        if threads == 1 {
            let all = Span {
                from: 0,
                count: pixels,
            };
            return self.span_sums(alloc, closed, region, all, line);
        }
        let size = span_size(region, line, threads);
        let spans = map_numbered(
            rt,
            alloc,
            span_count(region, size),
            threads,
            &|number: u32| -> Result<Resolved, NoMemory>
                requires { CanRead self.now region closed.now × (size * number < region.w * region.h) × (1 ≤ line) × (line ≤ MAX_PIXELS) }
                ensures { IfOk result (IsSpan self.entry.now region closed.entry.now.lists size number) }
            { self.span_sums(alloc, closed, region, span_of(region, size, number), line) },
        )?;
        self.joined(alloc, closed, region, size, &spans)
    }
}

/// Returns the sums of each pixel of the region, in order, and the length of the longest list, which the workers learn on the way. A
/// pixel's sums are, for each channel, the sum of its samples' colours. In each sample the fragments that
/// have it are ordered by their depth keys there; greater keys are nearer, and of equal keys the lower primitive number lies
/// beneath. The pixels are shared among 1 to 64 workers, and the sums are the same for every number of them. The frame must not be
/// full, since then its lists lack fragments; each payload is the word of a fragment of one of the scene's triangles, and its mask
/// has only samples that the triangle covers in that pixel. An error means that memory ran out.
pub fn resolve_counted<R: Threads + Sync>(
    rt: &R,
    alloc: Global,
    closed: &Closed,
    region: Region,
    shading: &Shading,
    threads: u32,
) -> Result<Resolved, NoMemory>
    requires not_full { closed.now.fragments ≤ closed.now.nodes }
    requires threads { (1 ≤ threads) × (threads ≤ MAX_THREADS) }
    requires pixels { length closed.now.lists ≡ region.w * region.h }
    requires words { AreFragmentLists (offsets_of shading.now.pattern) shading.now.planes region closed.now.lists }
    ensures value { IfOk result (λ all. all.sums ≡ sums_of shading.now region closed.now.lists) }
    ensures small { IfOk result (λ all. All (IsSmall (length (offsets_of shading.now.pattern))) all.sums) }
    ensures longest { IfOk result (λ all. all.longest ≡ maximum (map length closed.now.lists)) }
{
    shading.shared(rt, alloc, closed, region, threads)
}
