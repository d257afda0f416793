// The sums of one pixel.
ghost use Rattle.std.specs.Prelude.{◌≡◌, ℕ, ◌∷◌, [], ◌<◌, true, length, IfOk, IfSome};
ghost use Rattle.std.specs.List.{All};
ghost use Rattle.abuf_raster.specs.Samples.{offsets_of};
ghost use Rattle.abuf_resolve.specs.Shading.{colour_at, composite_at, sum_at, IsFragmentOf, AscendIn};
ghost use Rattle.abuf_resolve.specs.Sums.{plus, summed, IsSmall};
ghost use Rattle.abuf_resolve.specs.ColourSum.{in_set};
ghost use Rattle.abuf_resolve.specs.Words.{has_sample, with_fragment, IsPainted};

use crate::colour_sum::ColourSum;
use crate::fold::composite_all;
use crate::fragment_words::FragmentWord;
use crate::order::order_from;
use crate::planes::Scope;
use crate::sample_hits::{SampleHits, are_apart};
use crate::shading::bounded::Bounded;
use crate::shading::{Pixel, Shading};
use abuf_num::{NoMemory, Paint, PixelSum};
use std::alloc::Global;

/// What a worker keeps from one pixel to the next, so that few of them take memory.
#[derive(Drop)]
pub(crate) struct Buffers {
    /// The fragments of a pixel, with their bounds.
    fragments: Vec<Bounded>,
    /// The words of a pixel's fragments, in order.
    words: Vec<u64>,
    /// The words of one sample.
    keys: Vec<u64>,
}

impl Buffers {
    /// Takes no memory.
    pub(crate) fn new(alloc: Global) -> Buffers {
        Buffers {
            fragments: Vec::new(alloc),
            words: Vec::new(alloc),
            keys: Vec::new(alloc),
        }
    }
}

/// No colours summed yet.
const NOTHING: PixelSum = PixelSum { channels: [0; 3] };

/// The sums of at most 16 colours, with one more.
pub fn plus(sum: PixelSum, colour: [u16; 3]) -> PixelSum
    requires { IsSmall 16 sum }
    ensures { result ≡ plus sum colour }
{
    PixelSum {
        channels: [
            sum.channels[0] + u32::from(colour[0]),
            sum.channels[1] + u32::from(colour[1]),
            sum.channels[2] + u32::from(colour[2]),
        ],
    }
}

/// The colour with the paint of the word's fragment laid over it, where that has sample k.
fn with_fragment(under: [u16; 3], word: u64, paints: &[Paint], k: u32) -> [u16; 3]
    requires sample { k < 16 }
    requires paint { IsPainted paints.now word }
    ensures { result ≡ with_fragment paints.now k under word }
{
    if FragmentWord(word).covers(k) {
        FragmentWord(word).composite_over(under, paints)
    } else {
        under
    }
}

/// The samples of a set that the fragment has, if it has sample k; otherwise the samples of the set that it lacks.
fn same_coverage(set: u32, word: u64, k: u32) -> u32
    requires { k < 16 }
    ensures same { (j : ℕ) → j < 32 → in_set result j ≡ true → (in_set set j ≡ true) × (has_sample j word ≡ has_sample k word) }
    ensures itself { in_set set k ≡ true → in_set result k ≡ true }
{
    if FragmentWord(word).covers(k) {
        set & FragmentWord(word).mask()
    } else {
        set & !FragmentWord(word).mask()
    }
}

/// The samples of a set that have exactly the fragments that sample k has.
fn same_fragments(set: u32, words: &[u64], k: u32) -> u32
    requires { k < 16 }
    ensures same { (j : ℕ) → j < 32 → in_set result j ≡ true → All (λ word. has_sample j word ≡ has_sample k word) words.now }
    ensures itself { in_set set k ≡ true → in_set result k ≡ true }
{
    let mut same = set;
    for word in words {
        let less = same_coverage(same, *word, k);
        same = less;
    }
    same
}

impl<'a, 'b> Shading<'a, 'b> {
    /// The colour of sample k, from the words of a pixel in its order.
    fn composite(&self, words: &[u64], k: u32) -> [u16; 3]
        requires sample { k < 16 }
        requires words { All (IsPainted self.now.paints.now) words.now }
        ensures { result ≡ composite_at self.now words.now k }
    {
        let mut colour = self.background;
        for word in words {
            let above = with_fragment(colour, *word, self.paints, k);
            colour = above;
        }
        colour
    }

    /// The sums over the samples of two fragments, of which the upper one isn't below the other in any sample.
    fn composite_pair(&self, lower: u64, upper: u64) -> PixelSum
        requires lower { IsPainted self.now.paints.now lower }
        requires upper { IsPainted self.now.paints.now upper }
        ensures value { result ≡ summed (composite_at self.now (lower ∷ upper ∷ [])) (length (offsets_of self.now.pattern)) }
        ensures small { IsSmall (length (offsets_of self.now.pattern)) result }
    {
        let beneath = FragmentWord(lower).composite_over(self.background, self.paints);
        let of_lower = FragmentWord(lower).mask();
        let of_upper = FragmentWord(upper).mask();
        ColourSum::new(self.pattern.size())
            .with(
                of_lower & of_upper,
                FragmentWord(upper).composite_over(beneath, self.paints),
            )
            .with(
                of_upper,
                FragmentWord(upper).composite_over(self.background, self.paints),
            )
            .with(of_lower, beneath)
            .all_with(self.background)
    }

    /// A pixel's sums, from words that stand in the order of each sample. Samples with the same fragments have one colour, so it is
    /// worked out once.
    fn sums_in_order(&self, words: &[u64], at: Pixel) -> PixelSum
        requires words { All (IsFragmentOf self.now at) words.now }
        requires ascending { AscendIn self.now at words.now }
        ensures value { result ≡ sum_at self.now at words.now }
        ensures small { IsSmall (length (offsets_of self.now.pattern)) result }
    {
        let mut colour_sum = ColourSum::new(self.pattern.size());
        while colour_sum.rest != 0 {
            let k = colour_sum.rest.trailing_zeros();
            let same = same_fragments(colour_sum.rest, words, k);
            let more = colour_sum.with(same, self.composite(words, k));
            colour_sum = more;
        }
        colour_sum.all()
    }

    /// The sums of a pixel with one fragment.
    fn sums_of_one(&self, word: u64, at: Pixel) -> PixelSum
        requires { IsFragmentOf self.now at word }
        ensures value { result ≡ sum_at self.now at (word ∷ []) }
        ensures small { IsSmall (length (offsets_of self.now.pattern)) result }
    {
        let above = FragmentWord(word).composite_over(self.background, self.paints);
        ColourSum::new(self.pattern.size())
            .with(FragmentWord(word).mask(), above)
            .all_with(self.background)
    }

    /// The sums of a pixel without fragments.
    fn sums_of_none(&self, at: Pixel) -> PixelSum
        ensures value { result ≡ sum_at self.now at [] }
        ensures small { IsSmall (length (offsets_of self.now.pattern)) result }
    {
        ColourSum::new(self.pattern.size()).all_with(self.background)
    }

    /// The colour of sample k of a pixel, from its words in any order, by their keys there.
    fn colour_by_keys(
        &self,
        keys: &mut Vec<u64>,
        list: &[u64],
        at: Pixel,
        k: u32,
    ) -> Result<[u16; 3], NoMemory>
        requires sample { k < length (offsets_of self.now.pattern) }
        requires words { All (IsFragmentOf self.now at) list.now }
        ensures { IfOk result (λ c. c ≡ colour_at self.now at list.now k) }
    {
        let least = self.gather_seen(keys, list, at, k)?;
        // Of several samples, the words come in the order of bounds that hold for all.
        order_from(keys, least, self.pattern.size() > 1);
        Ok(composite_all(self.background, keys, self.paints))
    }

    /// The colour of sample k of a pixel, from its words in any order. If it has one fragment or none, no key is computed.
    fn colour_at(
        &self,
        keys: &mut Vec<u64>,
        list: &[u64],
        at: Pixel,
        k: u32,
    ) -> Result<[u16; 3], NoMemory>
        requires sample { k < length (offsets_of self.now.pattern) }
        requires words { All (IsFragmentOf self.now at) list.now }
        ensures { IfOk result (λ c. c ≡ colour_at self.now at list.now k) }
    {
        match SampleHits::of(list, k) {
            SampleHits::Nothing => Ok(self.background),
            SampleHits::One(word) => Ok(FragmentWord(word).composite_over(
                self.background,
                self.paints,
            )),
            SampleHits::More => self.colour_by_keys(keys, list, at, k),
        }
    }

    /// The sums of a pixel of one sample, from its words in any order.
    fn sums_of_sample(
        &self,
        keys: &mut Vec<u64>,
        list: &[u64],
        at: Pixel,
    ) -> Result<PixelSum, NoMemory>
        requires one { length (offsets_of self.now.pattern) ≡ 1 }
        requires words { All (IsFragmentOf self.now at) list.now }
        ensures value { IfOk result (λ sum. sum ≡ sum_at self.now at list.now) }
        ensures small { IfOk result (λ sum. IsSmall (length (offsets_of self.now.pattern)) sum) }
    {
        let colour = self.colour_by_keys(keys, list, at, 0)?;
        Ok(plus(NOTHING, colour))
    }

    /// A pixel's sums, with the fragments put in order in each sample by itself.
    fn sums_by_sample(
        &self,
        keys: &mut Vec<u64>,
        list: &[u64],
        at: Pixel,
    ) -> Result<PixelSum, NoMemory>
        requires { All (IsFragmentOf self.now at) list.now }
        ensures value { IfOk result (λ sum. sum ≡ sum_at self.now at list.now) }
        ensures small { IfOk result (λ sum. IsSmall (length (offsets_of self.now.pattern)) sum) }
    {
        let mut sum = NOTHING;
        for k in 0..self.pattern.size() {
            let colour = self.colour_at(keys, list, at, k)?;
            let more = plus(sum, colour);
            sum = more;
        }
        Ok(sum)
    }

    /// The sums of a pixel with two fragments, if bounds of their depths tell which lies above the other.
    fn sums_of_pair(&self, first: u64, second: u64, at: Pixel, scope: Scope) -> Option<PixelSum>
        requires first { IsFragmentOf self.now at first }
        requires second { IsFragmentOf self.now at second }
        ensures value { IfSome result (λ sum. sum ≡ sum_at self.now at (first ∷ second ∷ [])) }
        ensures small { IfSome result (λ sum. IsSmall (length (offsets_of self.now.pattern)) sum) }
    {
        let first = self.bounded(first, at, scope);
        let second = self.bounded(second, at, scope);
        if self.stay_in_order(&[first, second], at) {
            Some(self.composite_pair(first.word, second.word))
        } else if self.stay_in_order(&[second, first], at) {
            Some(self.composite_pair(second.word, first.word))
        } else {
            None
        }
    }

    /// The sums of a pixel with two fragments.
    fn sums_of_two(
        &self,
        keys: &mut Vec<u64>,
        first: u64,
        second: u64,
        at: Pixel,
    ) -> Result<PixelSum, NoMemory>
        requires first { IsFragmentOf self.now at first }
        requires second { IsFragmentOf self.now at second }
        ensures value { IfOk result (λ sum. sum ≡ sum_at self.now at (first ∷ second ∷ [])) }
        ensures small { IfOk result (λ sum. IsSmall (length (offsets_of self.now.pattern)) sum) }
    {
        let words = [first, second];
        if are_apart(&words) {
            return Ok(self.composite_pair(first, second));
        }
        if let Some(sum) = self.sums_of_pair(first, second, at, Scope::Triangle) {
            Ok(sum)
        } else if let Some(sum) = self.sums_of_pair(first, second, at, Scope::Pixel) {
            Ok(sum)
        } else {
            self.sums_by_sample(keys, &words, at)
        }
    }

    /// The sums of a pixel with more fragments, from its list. Keys are worked out only where their bounds don't tell the order.
    fn sums_of_many(
        &self,
        buffers: &mut Buffers,
        list: &[u64],
        at: Pixel,
    ) -> Result<PixelSum, NoMemory>
        requires { All (IsFragmentOf self.now at) list.now }
        ensures value { IfOk result (λ sum. sum ≡ sum_at self.now at list.now) }
        ensures small { IfOk result (λ sum. IsSmall (length (offsets_of self.now.pattern)) sum) }
    {
        if self.pattern.size() == 1 {
            return self.sums_of_sample(&mut buffers.keys, list, at);
        }
        if are_apart(list) {
            return Ok(self.sums_in_order(list, at));
        }
        if self.put_in_order(&mut buffers.words, &mut buffers.fragments, list, at)? {
            Ok(self.sums_in_order(&buffers.words, at))
        } else {
            self.sums_by_sample(&mut buffers.keys, &buffers.words, at)
        }
    }

    /// A pixel's sums over the samples, from its list.
    pub(crate) fn pixel_sum(
        &self,
        buffers: &mut Buffers,
        list: &[u64],
        at: Pixel,
    ) -> Result<PixelSum, NoMemory>
        requires { All (IsFragmentOf self.now at) list.now }
        ensures value { IfOk result (λ sum. sum ≡ sum_at self.now at list.now) }
        ensures small { IfOk result (λ sum. IsSmall (length (offsets_of self.now.pattern)) sum) }
    {
        match list {
            [] => Ok(self.sums_of_none(at)),
            [word] => Ok(self.sums_of_one(*word, at)),
            [first, second] => self.sums_of_two(&mut buffers.keys, *first, *second, at),
            _ => self.sums_of_many(buffers, list, at),
        }
    }
}
