// The words of fragments, and of fragments in a sample.
ghost use Rattle.std.specs.Prelude.{◌≡◌, ◌/◌, ◌<◌, ◌≤◌, ◌^◌, true, nat_lt, length, IfOk};
ghost use Rattle.abuf_raster.specs.Packing.{unpacked};
ghost use Rattle.abuf_resolve.specs.Colour.{paint_at};
ghost use Rattle.abuf_resolve.specs.Over.{composite_over};
ghost use Rattle.abuf_resolve.specs.Words.{depth_word, prim_of, sample_word, sample_words, has_sample, IsDepthWord, IsFragmentAt, IsPainted};

use crate::fold::composite_over;
use abuf_num::Paint;

/// A fragment's word: its primitive number times 2^16, plus its coverage mask. So the mask is in the lower 16 bits.
#[derive(Clone, Copy)]
pub struct FragmentWord(pub u64);

impl FragmentWord {
    /// The number of its primitive.
    #[inline(always)]
    pub fn primitive(self) -> u64
        ensures { result ≡ (unpacked self.0).prim }
    {
        self.0 >> 16
    }

    /// The coverage mask of the fragment: bit k is set where it has sample k.
    #[inline(always)]
    pub fn mask(self) -> u32
        ensures { result ≡ (unpacked self.0).mask }
    {
        (self.0 & 0xffff) as u32
    }

    /// Whether the fragment has sample k.
    #[inline(always)]
    pub fn covers(self, k: u32) -> bool
        requires { k < 16 }
        ensures { result ≡ has_sample k self.0 }
    {
        self.mask() >> k & 1 == 1
    }

    /// A colour with the paint of its primitive laid over it.
    #[inline(always)]
    pub(crate) fn composite_over(self, under: [u16; 3], paints: &[Paint]) -> [u16; 3]
        requires { IsPainted paints.now self.0 }
        ensures { result ≡ composite_over under (paint_at paints.now (unpacked self.0).prim) }
    {
        composite_over(under, paints[self.primitive() as usize])
    }
}

/// A fragment's word in one sample: its depth key there times 2^24, plus its primitive number. So the number is in the lower 24
/// bits, and ascending words go from the farthest fragment to the nearest.
#[derive(Clone, Copy)]
pub struct SampleWord(pub u64);

impl SampleWord {
    /// The word of a primitive with this depth key.
    #[inline(always)]
    pub fn new(key: u32, primitive: u64) -> SampleWord
        requires { primitive < 2 ^ 48 }
        ensures { result.0 ≡ depth_word key primitive }
    {
        SampleWord(u64::from(key) * (1 << 24) + primitive)
    }

    /// The number of its primitive.
    #[inline(always)]
    pub fn primitive(self) -> u64
        ensures { result ≡ prim_of self.0 }
    {
        self.0 & 0xffffff
    }

    /// The depth key of the fragment in the sample.
    #[inline(always)]
    pub fn depth_key(self) -> u64
        ensures { result ≡ self.0 / 2 ^ 24 }
    {
        self.0 >> 24
    }
}
