// The lists of neighbouring pixels, copied side by side.
ghost use Rattle.std.specs.Prelude.{◌≡◌, ℕ, ◌+◌, ◌<◌, [], IfOk, IsTrue, length, map, slice_index, slice_index_or, vec_items};
ghost use Rattle.abuf_frame.specs.Lanes.{Advances, AllAdvance, Refers, head_or_end};
ghost use Rattle.abuf_frame.specs.Reading.{HoldsEight};

use crate::closed::Closed;
use crate::frozen_words::FrozenWords;
use abuf_num::NoMemory;

/// Where the walks along the lists of the eight pixels from this one on begin.
fn heads(words: &FrozenWords, pixels: u32, pixel: u32) -> [u64; 8]
    requires { pixels < length words.now }
    ensures length { length result ≡ 8 }
    ensures heads { (k : ℕ) → k < 8 → slice_index result k ≡ head_or_end words.now pixels (pixel + k) }
{
    let mut at = [0; 8];
    for k in 0..8 {
        let there = pixel as usize + k;
        if there < pixels as usize {
            at[k] = words.word(1 + there);
        }
    }
    at
}

/// Empties the buffers, and keeps their memory.
fn clear_all(lists: &mut [Vec<u64>; 8])
    ensures length { length lists.new ≡ 8 }
    ensures empty { (k : ℕ) → k < 8 → slice_index_or (map vec_items lists.new) k [] ≡ [] }
{
    for k in 0..8 {
        lists[k].clear();
    }
}

/// Whether each walk has come to the end of its list.
#[inline(always)]
fn all_ended(at: &[u64; 8]) -> bool
    ensures { IsTrue result → (k : ℕ) → k < 8 → slice_index at.now k ≡ 0 }
{
    *at == [0; 8]
}

/// Whether all walks of both have.
#[inline(always)]
fn both_ended(at: &[u64; 8], others: &[u64; 8]) -> bool
    ensures at { IsTrue result → (k : ℕ) → k < 8 → slice_index at.now k ≡ 0 }
    ensures others { IsTrue result → (k : ℕ) → k < 8 → slice_index others.now k ≡ 0 }
{
    all_ended(at) && all_ended(others)
}

/// Passes the node to which the word refers, if it isn't 0: puts its payload last in the list, and returns its next.
#[inline(always)]
pub(crate) fn advance(
    words: &FrozenWords,
    pixels: u32,
    at: u64,
    list: &mut Vec<u64>,
) -> Result<u64, NoMemory>
    requires { Refers words.now pixels at }
    ensures { IfOk result (λ next. Advances words.now pixels at next list.old.items list.new.items) }
{
    if at == 0 {
        return Ok(0);
    }
    let node = 1 + pixels as usize + 2 * (at - 1) as usize;
    list.push(words.word(node))?;
    Ok(words.word(node + 1))
}

/// Each lane passes one node, as by `advance`. No lane's loads wait for those of another.
#[inline(always)]
fn advance_all(
    words: &FrozenWords,
    pixels: u32,
    at: &mut [u64; 8],
    lists: &mut [Vec<u64>; 8],
) -> Result<(), NoMemory>
    requires { (k : ℕ) → k < 8 → Refers words.now pixels (slice_index at.old k) }
    ensures length { (length at.new ≡ 8) × (length lists.new ≡ 8) }
    ensures lanes { IfOk result (λ _. AllAdvance words.now pixels at.old at.new (map vec_items lists.old) (map vec_items lists.new)) }
{
    for k in 0..8 {
        at[k] = advance(words, pixels, at[k], &mut lists[k])?;
    }
    Ok(())
}

impl Closed {
    /// The lists of the eight pixels from this one on, and of the eight from another one on, each in the order of its walk, and an empty
    /// one for each pixel past the last. A walk along one list waits for memory at each node. Sixteen are walked here side by side, so
    /// that their waits overlap, and neighbouring nodes are read while they are in the cache. The cost grows with the longest list and
    /// with the sum of the sixteen. Where memory runs out, the buffers hold some of the payloads.
    pub(crate) fn copy_eights(
        &self,
        pixel: u32,
        other: u32,
        lists: &mut [Vec<u64>; 8],
        others: &mut [Vec<u64>; 8],
    ) -> Result<(), NoMemory>
        ensures length { (length lists.new ≡ 8) × (length others.new ≡ 8) }
        ensures lists { IfOk result (λ _. HoldsEight self.now pixel (map vec_items lists.new)) }
        ensures others { IfOk result (λ _. HoldsEight self.now other (map vec_items others.new)) }
    {
        let words = &self.words;
        let mut at = heads(words, self.pixels, pixel);
        let mut other_at = heads(words, self.pixels, other);
        clear_all(lists);
        clear_all(others);
        for _ in 0..self.table_nodes {
            if both_ended(&at, &other_at) {
                break;
            }
            advance_all(words, self.pixels, &mut at, lists)?;
            advance_all(words, self.pixels, &mut other_at, others)?;
        }
        Ok(())
    }
}
