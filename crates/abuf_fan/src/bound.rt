// How many fragments triangles have at most.
ghost use Rattle.std.specs.Prelude.{ℕ, ◌+◌, ◌*◌, ◌<◌, ◌≤◌, IsTrue, ◌↔◌, length};
ghost use Rattle.abuf_num.specs.declared.limits.TheConstants.{MAX_PIXELS, MAX_PRIMITIVES, MAX_THREADS};
ghost use Rattle.abuf_raster.specs.Samples.{offsets_of};
ghost use Rattle.abuf_raster.specs.Hits.{hits};
ghost use Rattle.abuf_fan.specs.Bound.{CanCount, IsBound};
ghost use Rattle.abuf_fan.specs.declared.bound.TheConstants.{GUESSED, LITTLE};
ghost use denote.Param.Send.{IsSync};

use abuf_raster::{Pattern, Region, ScreenTri, max_hits, meets, region_law};
use std::thread::{Threads, join};

/// At least as many as the triangle's hits. For a triangle outside of the region, [`meets`] is much faster than setting up its
/// tiles. In a region of one pixel, which takes one node at most, it is all that is asked.
#[inline(always)]
fn max_of(t: &ScreenTri, region: Region, pattern: Pattern) -> u32
    ensures bound { (prim : ℕ) → length (hits t.now prim (offsets_of pattern) region) ≤ result }
    ensures few { result ≤ region.w * region.h }
{
    if !meets(t, region, pattern) {
        return 0;
    }
    if region.pixels() == 1 {
        return 1;
    }
    max_hits(t, region, pattern)
}

/// The sum of what each of the triangles has at most, up to what is enough. Not inlined, so that the frames of [`bound_on_threads`] are
/// small, of which the caller's stack holds one for each thread.
#[inline(never)]
fn sum_of(tris: &[ScreenTri], region: Region, pattern: Pattern, enough: u64) -> u64
    requires few { length tris.now ≤ MAX_PRIMITIVES }
    ensures bound { IsBound tris.now (offsets_of pattern) region enough result }
    ensures small { result ≤ length tris.now * MAX_PIXELS }
{
    region_law(region);
    let mut sum = 0;
    for t in tris {
        if enough <= sum {
            return sum;
        }
        sum += u64::from(max_of(t, region, pattern));
    }
    sum
}

/// About how many pixels may be asked of one thread: where there are no more, starting another takes longer.
const LITTLE: u64 = 4194304;

/// Whether one thread finds the bound so soon that starting others doesn't pay.
fn is_little(count: usize, region: Region) -> bool
    requires few { count ≤ MAX_PRIMITIVES }
    ensures { IsTrue result ↔ (count * (region.w * region.h + 64) ≤ LITTLE) }
{
    count as u64 * u64::from(region.pixels() + 64) <= LITTLE
}

/// The bound, found by so many threads.
fn bound_on_threads<R: Threads + Sync>(
    rt: &R,
    tris: &[ScreenTri],
    region: Region,
    pattern: Pattern,
    threads: u32,
    enough: u64,
) -> u64
    requires few { length tris.now ≤ MAX_PRIMITIVES }
    requires threads { (1 ≤ threads) × (threads ≤ MAX_THREADS) }
    ensures bound { IsBound tris.now (offsets_of pattern) region enough result }
    ensures small { result ≤ length tris.now * MAX_PIXELS }
{
    if threads == 1 || is_little(tris.len(), region) {
        return sum_of(tris, region, pattern, enough);
    }
    // One part for a new thread, and the others for the caller, which starts all threads itself.
    let left = 1;
    let right = threads - 1;
    let (front, back) = tris.split_at(tris.len() * left as usize / threads as usize);
    // In a recursion a closure can be lent a struct with a model, and not be given it.
    let shared = &region;
    let (before, after) = join(
        rt,
        move || -> u64
            requires { IsSync R.row × CanCount front.now left }
            ensures { IsBound front.entry.now (offsets_of pattern) shared.entry.now enough result × (result ≤ length front.entry.now * MAX_PIXELS) }
        { bound_on_threads(rt, front, *shared, pattern, left, enough) },
        move || -> u64
            requires { IsSync R.row × CanCount back.now right }
            ensures { IsBound back.entry.now (offsets_of pattern) shared.entry.now enough result × (result ≤ length back.entry.now * MAX_PIXELS) }
        { bound_on_threads(rt, back, *shared, pattern, right, enough) },
    );
    before + after
}

/// What some of the triangles show: how many of them were looked at, and what these have at most: the sum, the sum of the squares, and the
/// greatest.
#[derive(Drop)]
struct Survey {
    count: u64,
    sum: u64,
    squares: u64,
    greatest: u64,
}

/// Looks at the first triangle and then at one of so many.
fn survey_of(tris: &[ScreenTri], region: Region, pattern: Pattern, step: usize) -> Survey
    requires few { length tris.now ≤ MAX_PRIMITIVES }
    requires step { (1 ≤ step) × (step ≤ MAX_PRIMITIVES) }
{
    region_law(region);
    let mut count: u64 = 0;
    let mut sum: u64 = 0;
    let mut squares: u64 = 0;
    let mut greatest: u64 = 0;
    let mut i = 0;
    while i < tris.len() {
        let most = u64::from(max_of(&tris[i], region, pattern));
        count = count.saturating_add(1);
        sum = sum.saturating_add(most);
        squares = squares.saturating_add(most.saturating_mul(most));
        greatest = most.max(greatest);
        i += step;
    }
    Survey {
        count,
        sum,
        squares,
        greatest,
    }
}

/// For how many triangles of so many one stands, where so many are looked at, or more. It is odd, since triangles often come in pairs
/// that are unlike.
fn step_of(count: usize, surveyed: usize) -> usize
    requires few { count ≤ MAX_PRIMITIVES }
    requires surveyed { 1 ≤ surveyed }
    ensures some { 1 ≤ result }
    ensures few { result ≤ MAX_PRIMITIVES }
{
    (count / surveyed).saturating_sub(1) / 2 * 2 + 1
}

/// From how many triangles on some of them stand for all.
const MANY: usize = 2048;

/// How many are looked at.
const SURVEYED: usize = 1024;

/// The fewest triangles that one stands for, about, itself among them.
const LEAST_STEP: usize = 16;

/// Whether the triangles have about as many fragments as are enough, or more, judged by some of them. It is a guess, and isn't made where
/// a few large triangles would decide it. A wrong one costs memory, or the time that a right one saves.
fn seem_enough(tris: &[ScreenTri], region: Region, pattern: Pattern, enough: u64) -> bool
    requires few { length tris.now ≤ MAX_PRIMITIVES }
    ensures { IsTrue result → enough ≤ length tris.now * MAX_PIXELS }
{
    let all = tris.len() as u64 * u64::from(region.pixels());
    if tris.len() < MANY || all < enough {
        return false;
    }
    region_law(region);
    let step = step_of(tris.len(), SURVEYED.min(tris.len() / LEAST_STEP));
    let shown = survey_of(tris, region, pattern, step);
    let is_even = shown.greatest.saturating_mul(LEAST_STEP as u64) <= shown.sum;
    is_even && (enough - enough / 8) / step as u64 <= shown.sum
}

/// An upper bound on the number of fragments of the triangles in the region, whatever their primitive numbers. It is the sum of the
/// bounds of all triangles, found on 1 to 64 threads, or on one if there is little to do. A frame of so many nodes loses none. More
/// nodes would only take memory, and time to clear it. Where the sum reaches what is enough, or seems to come near it, the rest isn't
/// asked, and the bound is what is enough: no caller needs one above the nodes that its pool may have. The call takes no memory.
pub fn max_fragments<R: Threads + Sync>(
    rt: &R,
    tris: &[ScreenTri],
    region: Region,
    pattern: Pattern,
    threads: u32,
    enough: u64,
) -> u64
    requires few { length tris.now ≤ MAX_PRIMITIVES }
    requires threads { (1 ≤ threads) × (threads ≤ MAX_THREADS) }
    ensures bound { IsBound tris.now (offsets_of pattern) region enough result }
    ensures small { result ≤ length tris.now * MAX_PIXELS }
{
    if seem_enough(tris, region, pattern, enough) {
        return enough;
    }
    bound_on_threads(rt, tris, region, pattern, threads, enough)
}

/// From how many triangles on their fragments are guessed. For fewer the bound takes little time.
const GUESSED: usize = 65536;

/// The fewest triangles that a guess looks at.
const GUESS_SURVEYED: usize = 4096;

/// How many fragments the triangles are likely to have at most, judged by some of them: what these stand for, and four standard deviations
/// of that. These are a sixteenth of it, or less, where the number of a triangle's fragments deviates from the mean by no more than the
/// mean, and an eighth, or less, where it does by no more than twice the mean. Where it deviates by more, a few large triangles would
/// decide the guess, and there is none.
fn guess(tris: &[ScreenTri], region: Region, pattern: Pattern) -> Option<u64>
    requires few { length tris.now ≤ MAX_PRIMITIVES }
{
    let step = step_of(tris.len(), GUESS_SURVEYED);
    let Survey {
        count,
        sum,
        squares,
        greatest: _,
    } = survey_of(tris, region, pattern, step);
    let all = sum.saturating_mul(step as u64);
    let square_of_sum = sum.saturating_mul(sum);
    let count_of_squares = count.saturating_mul(squares);
    if count_of_squares <= square_of_sum.saturating_mul(2) {
        Some(all.saturating_add(all / 16))
    } else if count_of_squares <= square_of_sum.saturating_mul(5) {
        Some(all.saturating_add(all / 8))
    } else {
        None
    }
}

/// As many fragments as the triangles are likely to have at most in the region, or more. For fewer than 65536 triangles it is the bound
/// of [`max_fragments`]. For more it is a guess, which takes a small part of the time, unless a few large ones would decide it. A frame
/// of so many nodes may lose some, if the guess is wrong. The call takes no memory.
pub fn likely_fragments<R: Threads + Sync>(
    rt: &R,
    tris: &[ScreenTri],
    region: Region,
    pattern: Pattern,
    threads: u32,
    enough: u64,
) -> u64
    requires few { length tris.now ≤ MAX_PRIMITIVES }
    requires threads { (1 ≤ threads) × (threads ≤ MAX_THREADS) }
    ensures bound { length tris.now < GUESSED → IsBound tris.now (offsets_of pattern) region enough result }
{
    if GUESSED <= tris.len() {
        if let Some(guessed) = guess(tris, region, pattern) {
            return guessed;
        }
    }
    max_fragments(rt, tris, region, pattern, threads, enough)
}
