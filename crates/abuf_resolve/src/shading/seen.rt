// The fragments that may be seen in one sample.
ghost use Rattle.std.specs.Prelude.{◌≡◌, ◌<◌, true, length, IfOk};
ghost use Rattle.std.specs.List.{All};
ghost use Rattle.abuf_raster.specs.Samples.{offsets_of};
ghost use Rattle.abuf_resolve.specs.Shading.{AreSeenAt, IsFragmentOf, IsStillSeenAt};
ghost use Rattle.abuf_resolve.specs.Words.{has_sample, IsDepthWord};

use crate::fragment_words::FragmentWord;
use crate::order::push_seen;
use crate::shading::{Pixel, Shading};
use abuf_num::NoMemory;

impl<'a, 'b> Shading<'a, 'b> {
    /// Puts the word of a fragment in sample k last, which it has, unless it is known to be hidden there, and returns the least
    /// that is then seen. The key isn't worked out where no key of the triangle reaches the least.
    #[inline(always)]
    fn push_fragment(
        &self,
        keys: &mut Vec<u64>,
        least: u64,
        word: u64,
        at: Pixel,
        k: u32,
    ) -> Result<u64, NoMemory>
        requires sample { k < length (offsets_of self.now.pattern) }
        requires word { IsFragmentOf self.now at word }
        requires has { has_sample k word ≡ true }
        ensures words { All (IsDepthWord (length self.now.paints.now)) keys.old.items → All (IsDepthWord (length self.now.paints.now)) keys.new.items }
        ensures seen { IfOk result (IsStillSeenAt self.now at k word keys.old.items keys.new.items least) }
    {
        if least > 0 && self.planes.max_word(FragmentWord(word).primitive() as u32) < least {
            return Ok(least);
        }
        let key = self.planes.sample_word(word, at, self.pattern, k);
        push_seen(keys, least, key, self.paints)
    }

    /// The fragments that have sample k and may be seen there, as words of that sample, in the order of the list, with the least
    /// that is seen. A fragment isn't even kept if an opaque one that precedes it in the list hides it.
    pub(crate) fn gather_seen(
        &self,
        keys: &mut Vec<u64>,
        list: &[u64],
        at: Pixel,
        k: u32,
    ) -> Result<u64, NoMemory>
        requires sample { k < length (offsets_of self.now.pattern) }
        requires words { All (IsFragmentOf self.now at) list.now }
        ensures seen { IfOk result (λ least. AreSeenAt self.now at k list.now keys.new.items least) }
        ensures fits { IfOk result (λ _. All (IsDepthWord (length self.now.paints.now)) keys.new.items) }
    {
        keys.clear();
        let mut least = 0;
        for word in list {
            if FragmentWord(*word).covers(k) {
                let next = self.push_fragment(keys, least, *word, at, k)?;
                least = next;
            }
        }
        Ok(least)
    }
}
