//! Laws over the definitions. Each function takes the values that its law speaks of, and computes nothing: its contract is
//! the law.
ghost use Rattle.std.specs.Prelude.{◌≡◌, ◌*◌, ◌<◌, ◌≤◌, length, map, nat_lt, IsPermutation};
ghost use Rattle.std.specs.List.{All};
ghost use Rattle.std.specs.List.Sorted.{IsNonDecreasing};
ghost use Rattle.abuf_num.specs.declared.limits.TheConstants.{MAX_PRIMITIVES};
ghost use Rattle.abuf_frame.specs.Draws.{payloads_at};
ghost use Rattle.abuf_raster.specs.Samples.{offsets_of};
ghost use Rattle.abuf_raster.specs.Hits.{all_fragments};
ghost use Rattle.abuf_resolve.specs.Laws.{x_at, y_at, counts, GiveColour, GiveRegionSums, HasOneEach, UnpackToFragments, AreLayers, TellLayers};
ghost use Rattle.abuf_resolve.specs.Order.{in_order};
ghost use Rattle.abuf_resolve.specs.Pixel.{present};
ghost use Rattle.abuf_resolve.specs.Words.{IsFragmentAt, AreListsOf, AreWordsAt, AreFragmentLists};

use abuf_frame::Closed;
use abuf_num::Paint;
use abuf_raster::{Pattern, Region, ScreenTri, region_law};

/// The law of the list, for the pixel at one place of a region and one sample. Of the words of all fragments there, given in any
/// order, those that have the sample, ordered by their depth keys there and their primitive numbers and folded, give the colour
/// of that sample.
pub fn list_law(
    triangles: &[ScreenTri],
    pattern: Pattern,
    region: Region,
    place: u32,
    sample: u32,
    words: &[u64],
)
    requires few { length triangles.now ≤ MAX_PRIMITIVES }
    requires sample { sample < length (offsets_of pattern) }
    requires place { place < region.w * region.h }
    requires words { IsPermutation words.now (payloads_at place (all_fragments triangles.now 0 (offsets_of pattern) region)) }
    ensures { GiveColour (offsets_of pattern) triangles.now (x_at region place) (y_at region place) sample words.now }
{
    region_law(region);
}

/// The law of order: a list that holds the same words and ascends is the list put in order.
pub fn order_law(words: &[u64], sorted: &[u64])
    requires same { IsPermutation words.now sorted.now }
    requires ascending { IsNonDecreasing sorted.now }
    ensures { sorted.now ≡ in_order nat_lt words.now }
{}

/// The law of the sums. Where the lists of a closed frame hold all fragments of a region, drawn in any order, the sums of its
/// lists are those of the region's pixels.
pub fn sums_law(
    closed: &Closed,
    triangles: &[ScreenTri],
    paints: &[Paint],
    pattern: Pattern,
    background: [u16; 3],
    region: Region,
)
    requires few { length triangles.now ≤ MAX_PRIMITIVES }
    requires pixels { length closed.now.lists ≡ region.w * region.h }
    requires lists { AreListsOf (all_fragments triangles.now 0 (offsets_of pattern) region) closed.now.lists }
    ensures { GiveRegionSums (offsets_of pattern) background triangles.now paints.now region closed.now.lists }
{
    region_law(region);
}

/// The law of the words. Where the lists of a closed frame hold all fragments of a region, each of their words is one of a
/// fragment of a primitive in its pixel, with only samples that the primitive covers there.
pub fn words_law(closed: &Closed, triangles: &[ScreenTri], pattern: Pattern, region: Region)
    requires few { length triangles.now ≤ MAX_PRIMITIVES }
    requires pixels { length closed.now.lists ≡ region.w * region.h }
    requires lists { AreListsOf (all_fragments triangles.now 0 (offsets_of pattern) region) closed.now.lists }
    ensures { AreFragmentLists (offsets_of pattern) triangles.now region closed.now.lists }
{
    region_law(region);
}

/// The law of the pixel, for the pixel at one place of a region. The words of all fragments there, given in any order, unpack
/// in ascending order to the pixel's fragments, one for each primitive that is present, by ascending primitive number. In each
/// sample, ordered, they are the words of the primitives that cover it, from the lowest to the topmost, and tell these
/// primitives' numbers and depth keys. Each word is one of a fragment in the pixel, in whatever order they stand.
pub fn pixel_law(
    triangles: &[ScreenTri],
    pattern: Pattern,
    region: Region,
    place: u32,
    words: &[u64],
)
    requires few { length triangles.now ≤ MAX_PRIMITIVES }
    requires place { place < region.w * region.h }
    requires words { AreWordsAt (all_fragments triangles.now 0 (offsets_of pattern) region) place words.now }
    ensures fragments { UnpackToFragments (offsets_of pattern) triangles.now (x_at region place) (y_at region place) words.now }
    ensures count { length words.now ≡ length (present (offsets_of pattern) triangles.now (x_at region place) (y_at region place)) }
    ensures most { length words.now ≤ length triangles.now }
    ensures layers { AreLayers (offsets_of pattern) triangles.now (x_at region place) (y_at region place) words.now }
    ensures told { TellLayers (offsets_of pattern) triangles.now (x_at region place) (y_at region place) words.now }
    ensures fit { All (IsFragmentAt (offsets_of pattern) triangles.now (x_at region place) (y_at region place)) words.now }
    ensures ordered_fit { All (IsFragmentAt (offsets_of pattern) triangles.now (x_at region place) (y_at region place)) (in_order nat_lt words.now) }
{
    region_law(region);
}

/// The law of one each: at one place of a region there are no more fragments than primitives, in whatever order all
/// fragments of the region were drawn.
pub fn one_each_law(triangles: &[ScreenTri], pattern: Pattern, region: Region, place: u32)
    requires few { length triangles.now ≤ MAX_PRIMITIVES }
    requires place { place < region.w * region.h }
    ensures { HasOneEach (all_fragments triangles.now 0 (offsets_of pattern) region) place (length triangles.now) }
{
    region_law(region);
}

/// The law of the lengths. Where the lists of a closed frame hold all fragments of a region, drawn in any order, each list is
/// as long as there are primitives present in its pixel.
pub fn lengths_law(closed: &Closed, triangles: &[ScreenTri], pattern: Pattern, region: Region)
    requires few { length triangles.now ≤ MAX_PRIMITIVES }
    requires pixels { length closed.now.lists ≡ region.w * region.h }
    requires lists { AreListsOf (all_fragments triangles.now 0 (offsets_of pattern) region) closed.now.lists }
    ensures { map length closed.now.lists ≡ counts (offsets_of pattern) triangles.now region }
{
    region_law(region);
}
