// The pieces of a file, each read on a thread.
ghost use Rattle.std.specs.Prelude.{◌≡◌, ◌∷◌, ◌+◌, ◌-◌, ◌^◌, ◌<◌, ◌≤◌, length, List as Items, ℕ, vec_len, IfOk};
ghost use Rattle.abuf_num.specs.declared.limits.TheConstants.{MAX_THREADS};
ghost use Rattle.abuf_text.specs.Lines.{lines};
ghost use Rattle.abuf_obj.specs.Pieces.{Behind, GivesPiece, HasPiece, HavePieces, IsTally};
ghost use denote.Param.Send.{IsSync};

use crate::given_up::GivenUp;
use crate::reader::ObjReader;
use crate::split::{offset_by_time, split_lines};
use crate::tally::Tally;
use abuf_text::Lines;
use std::alloc::Global;
use std::thread::{Threads, join};

/// The tally of these lines, counted on so many threads.
pub(crate) fn tally_on_threads<'a, R: Threads + Sync>(
    rt: &R,
    alloc: Global,
    threads: u32,
    bytes: &'a [u8],
) -> Result<Tally<'a>, GivenUp>
    requires threads { (1 ≤ threads) × (threads ≤ MAX_THREADS) }
    requires few { length bytes.now < 2 ^ 32 - 1 }
    ensures tally { IfOk result (IsTally (lines bytes.now)) }
    ensures few { IfOk result (λ t. t.lines ≤ length bytes.now) }
{
    if threads == 1 {
        return Tally::of(alloc, bytes);
    }
    // The caller starts all threads: one that a new thread starts may be left on its parent's processor while another is idle.
    let left = 1;
    let right = threads - 1;
    let (front, back) = split_lines(bytes, bytes.len() / threads as usize);
    let first = move || -> Result<Tally, GivenUp>
        requires { IsSync R.row × (1 ≤ left) × (left ≤ MAX_THREADS) × (length front.now < 2 ^ 32 - 1) }
        ensures { IfOk result (IsTally (lines front.entry.now)) × IfOk result (λ t. t.lines ≤ length front.entry.now) }
    { tally_on_threads(rt, alloc, left, front) };
    let second = move || -> Result<Tally, GivenUp>
        requires { IsSync R.row × (1 ≤ right) × (right ≤ MAX_THREADS) × (length back.now < 2 ^ 32 - 1) }
        ensures { IfOk result (IsTally (lines back.entry.now)) × IfOk result (λ t. t.lines ≤ length back.entry.now) }
    { tally_on_threads(rt, alloc, right, back) };
    let (first, second) = join(rt, first, second);
    let first = first?;
    let second = second?;
    Tally::both(first, second)
}

/// Reads a piece behind so many lines, where `start` knows what else stands above. Not inlined, so that the frames of [`read_pieces`]
/// are small, of which the caller's stack holds one for each thread.
#[inline(never)]
fn read_piece(
    alloc: Global,
    lines_above: u32,
    start: &ObjReader,
    bytes: &[u8],
) -> Result<ObjReader, GivenUp>
    requires { lines_above + length bytes.now < 2 ^ 32 - 1 }
    ensures { GivesPiece lines_above start.now (lines bytes.now) result }
{
    let mut reader = start.follower(alloc, bytes.len())?;
    let mut number = lines_above;
    for line in Lines::new(bytes) {
        number += 1;
        reader.take(alloc, number, line)?;
    }
    Ok(reader)
}

/// A reader, and others behind it. Not inlined, as [`read_piece`] isn't.
#[inline(never)]
fn with_first(first: ObjReader, others: Vec<ObjReader>) -> Result<Vec<ObjReader>, GivenUp>
    ensures some { IfOk result (λ readers. 1 ≤ vec_len readers) }
    ensures items { IfOk result (λ readers. readers.items ≡ first ∷ others.items) }
{
    let mut readers = others;
    readers.insert(0, first)?;
    Ok(readers)
}

/// Reads so many pieces, each on a thread, and gives their readers in order. The tally of the first piece tells what stands above
/// the others. While a thread reads it, the caller goes on with them. So each piece is begun later than the one before it, by about a
/// twentieth of the time for a piece. That all may end together, the first has more than its share: (threads + 35) / 36 of it.
pub(crate) fn read_pieces<R: Threads + Sync>(
    rt: &R,
    alloc: Global,
    threads: u32,
    lines_above: u32,
    start: &ObjReader,
    bytes: &[u8],
) -> Result<Vec<ObjReader>, GivenUp>
    requires threads { (1 ≤ threads) × (threads ≤ MAX_THREADS) }
    requires few { lines_above + length bytes.now < 2 ^ 32 - 1 }
    ensures some { IfOk result (λ readers. 1 ≤ vec_len readers) }
    ensures pieces { Behind lines_above start.now (λ before. IfOk result (λ readers. HavePieces readers.items before (lines bytes.now))) }
{
    if threads == 1 {
        let last = read_piece(alloc, lines_above, start, bytes)?;
        let alone = with_first(last, Vec::new(alloc))?;
        return Ok(alone);
    }
    let others = threads - 1;
    let (front, back) = split_lines(bytes, offset_by_time(bytes, 35 + threads, 36 * threads));
    let tally = tally_on_threads(rt, alloc, threads, front)?;
    let next = start.behind(alloc, &tally)?;
    let behind = &next;
    let lines_before = lines_above + tally.lines;
    let first = move || -> Result<ObjReader, GivenUp>
        requires { lines_above + length front.now < 2 ^ 32 - 1 }
        ensures { GivesPiece lines_above start.entry.now (lines front.entry.now) result }
    { read_piece(alloc, lines_above, start, front) };
    let rest = move || -> Result<Vec<ObjReader>, GivenUp>
        requires { IsSync R.row × (1 ≤ others) × (others ≤ MAX_THREADS) × (lines_before + length back.now < 2 ^ 32 - 1) }
        ensures { IfOk result (λ readers. 1 ≤ vec_len readers)
            × Behind lines_before behind.entry.now (λ before. IfOk result (λ readers. HavePieces readers.items before (lines back.entry.now))) }
    { read_pieces(rt, alloc, others, lines_before, behind, back) };
    let (first, rest) = join(rt, first, rest);
    let first = first?;
    let rest = rest?;
    let readers = with_first(first, rest)?;
    Ok(readers)
}

/// What the readers of neighbouring pieces have read, in one. Each puts its points and faces behind those of the first.
pub(crate) fn join_pieces(mut readers: Vec<ObjReader>) -> Result<ObjReader, GivenUp>
    requires { 1 ≤ vec_len readers }
    ensures { (before ls : Items (Items ℕ)) → HavePieces readers.items before ls → IfOk result (HasPiece before ls) }
{
    let mut all = readers.remove(0);
    for reader in readers {
        all = ObjReader::joined(all, reader)?;
    }
    Ok(all)
}
