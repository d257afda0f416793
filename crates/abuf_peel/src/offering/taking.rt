// Samples take the primitives that were found for them.
ghost use Rattle.std.specs.Prelude.{◌≡◌, ℕ, ◌+◌, ◌-◌, ◌^◌, ◌<◌, ◌≤◌, ◌⊎◌, [], false, true, length, slice_index_or, take};
ghost use Rattle.abuf_resolve.specs.Words.{prim_of};
ghost use Rattle.abuf_peel.specs.Layers.{NoneLeft, TakesTimes, count_of};
ghost use Rattle.abuf_peel.specs.Members.{HaveLeft};
ghost use Rattle.abuf_peel.specs.Taking.{AreKnown, marked, marked_by, no_word, painted, painted_by};
ghost use Rattle.abuf_peel.specs.Offers.{AreNext};
ghost use Rattle.abuf_peel.specs.Seen.{seen_of};

use crate::input::PaintedTriangles;
use crate::offering::{NO_WORD, Samples};
use abuf_num::Paint;
use abuf_resolve::{SampleWord, composite_over};

/// The word from which on primitives are left, once the one of this word is taken.
fn marked(word: u64, from: u64) -> u64
    ensures { result ≡ marked word from }
{
    if word == NO_WORD { from } else { word + 1 }
}

/// The word from which on primitives are left, once those of the first `count` words are taken one after another.
fn marked_by(words: &[u64; 16], count: usize, from: u64) -> u64
    requires { count ≤ 16 }
    ensures { result ≡ marked_by (take count words.now) from }
{
    let mut mark = from;
    for i in 0..count {
        mark = marked(words[i], mark);
    }
    mark
}

/// The colour, once the primitive of this word is taken.
fn painted(paints: &[Paint], word: u64, under: [u16; 3]) -> [u16; 3]
    requires { (word ≡ no_word) ⊎ (prim_of word < length paints.now) }
    ensures { result ≡ painted paints.now word under }
{
    if word == NO_WORD {
        under
    } else {
        composite_over(under, paints[SampleWord(word).primitive() as usize])
    }
}

/// The colour, once the primitives of the first `count` words are taken one after another.
fn painted_by(paints: &[Paint], words: &[u64; 16], count: usize, under: [u16; 3]) -> [u16; 3]
    requires count { count ≤ 16 }
    requires known { AreKnown (length paints.now) words.now }
    ensures { result ≡ painted_by paints.now (take count words.now) under }
{
    let mut colour = under;
    for i in 0..count {
        let next = painted(paints, words[i], colour);
        colour = next;
    }
    colour
}

impl Samples {
    /// Every sample takes the primitives of its first `count` words, one after another. True exactly where some sample has so many.
    pub(crate) fn take(
        &self,
        drawn: &PaintedTriangles,
        count: usize,
        best: &[[u64; 16]],
        from: &mut [u64],
        colours: &mut [[u16; 3]],
    ) -> bool
        requires some { 1 ≤ count }
        requires count { count ≤ 16 }
        requires next { AreNext drawn.now.tris.now self.now.region self.now.pattern from.old best.now }
        requires from { length from.old ≡ count_of self.now.region self.now.pattern }
        requires colours { length colours.old ≡ count_of self.now.region self.now.pattern }
        ensures sizes { (length from.new ≡ length from.old) × (length colours.new ≡ length colours.old) }
        ensures takes { TakesTimes drawn.now.tris.now drawn.now.paints.now count (seen_of self.now from.old colours.old)
            (seen_of self.now from.new colours.new) }
        ensures none { result ≡ false → (j : ℕ) → j < length best.now → slice_index_or (slice_index_or best.now j []) (count - 1) 0 ≡ no_word }
        ensures some { result ≡ true → (j : ℕ) × (j < length best.now) × (slice_index_or (slice_index_or best.now j []) (count - 1) 0 < no_word) }
    {
        let mut any = false;
        for i in 0..best.len() {
            from[i] = marked_by(&best[i], count, from[i]);
            colours[i] = painted_by(drawn.paints, &best[i], count, colours[i]);
            any |= best[i][count - 1] != NO_WORD;
        }
        any
    }

    /// Every sample takes its next 16 primitives, or all that it has left. At the call, `members` must name every primitive that a
    /// sample still takes. Primitives of which nothing is left are removed from it. Returns false only if no sample has a primitive
    /// left afterwards.
    pub(crate) fn take_next_of(
        &self,
        drawn: &PaintedTriangles,
        members: &mut Vec<u32>,
        from: &mut [u64],
        best: &mut [[u64; 16]],
        colours: &mut [[u16; 3]],
    ) -> bool
        requires members { HaveLeft drawn.now.tris.now self.now.region self.now.pattern from.old members.old.items }
        requires from { length from.old ≡ count_of self.now.region self.now.pattern }
        requires best { length best.old ≡ count_of self.now.region self.now.pattern }
        requires colours { length colours.old ≡ count_of self.now.region self.now.pattern }
        ensures sizes { (length from.new ≡ length from.old) × (length best.new ≡ length best.old) × (length colours.new ≡ length colours.old) }
        ensures takes { TakesTimes drawn.now.tris.now drawn.now.paints.now 16 (seen_of self.now from.old colours.old) (seen_of self.now from.new colours.new) }
        ensures members { HaveLeft drawn.now.tris.now self.now.region self.now.pattern from.new members.new.items }
        ensures none { result ≡ false → NoneLeft drawn.now.tris.now (seen_of self.now from.new colours.new) }
    {
        let kept = self.offer_members(drawn.tris, members, from, best);
        members.truncate(kept);
        self.take(drawn, 16, best, from, colours)
    }
}
