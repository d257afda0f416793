// The triangles, and what their depth keys take.
ghost use Rattle.std.specs.Prelude.{◌≡◌, ◌<◌, ◌≤◌, true, nat_lt, length, IfOk};
ghost use Rattle.std.specs.List.{All};
ghost use Rattle.std.specs.List.Sorted.{IsNonDecreasing};
ghost use Rattle.abuf_num.specs.declared.limits.TheConstants.{MAX_DEPTH, MAX_PRIMITIVES, MAX_THREADS};
ghost use Rattle.abuf_raster.specs.Samples.{offsets_of};
ghost use Rattle.abuf_raster.specs.Coverage.{covers};
ghost use Rattle.abuf_raster.specs.Depth.{depth_key, HasNoKeyAbove, HasNoKeyBelow};
ghost use Rattle.abuf_resolve.specs.Colour.{triangle_at};
ghost use Rattle.abuf_resolve.specs.Keys.{NoKeyBelow, NoKeyAbove, NoWordAbove};
ghost use Rattle.abuf_resolve.specs.Precomputed.{depth_range, CanShare, IsOf};
ghost use Rattle.abuf_resolve.specs.Order.{in_order};
ghost use Rattle.abuf_resolve.specs.Words.{sample_word, sample_words, has_sample, IsDepthWord, IsFragmentAt};
ghost use denote.Param.Send.{IsSync};

use crate::fragment_words::{FragmentWord, SampleWord};
use crate::order::put_in_order;
use crate::shading::Pixel;
use abuf_num::NoMemory;
use abuf_raster::{DepthPlane, Pattern, ScreenTri};
use std::alloc::Global;
use std::marker::Model;
use std::thread::{Threads, join};

/// What was precomputed for the triangles, in their order.
#[derive(Drop)]
pub(crate) struct Precomputed {
    pub(crate) planes: Vec<DepthPlane>,
    /// The least and the greatest depth value of each. They lie apart from the planes, since they are asked for far more often: in the
    /// caches there is room for many more of them.
    pub(crate) ranges: Vec<Bounds>,
}

/// Triangles whose depth keys are asked for. What a key takes is worked out once a triangle, or for each key where few are asked for.
/// Clauses see the list of the triangles.
#[derive(Drop)]
pub struct Planes<'a> {
    tris: &'a [ScreenTri],
    /// None where it is worked out when it is asked for.
    precomputed: Option<Precomputed>,
}

impl<'a> Model for Planes<'a> {
    ghost use Rattle.std.specs.Prelude.{List, IfSome};
    ghost use Rattle.abuf_raster.specs.Triangle.{Triangle};
    ghost use Rattle.abuf_resolve.specs.Precomputed.{IsOf};
    ghost use Rattle.abuf_resolve.specs.Order.{in_order};
    ghost use Rattle.abuf_resolve.specs.Words.{sample_word, sample_words, has_sample, IsDepthWord, IsFragmentAt};

    ghost Value = { List Triangle };

    ghost view = { λ p. p.tris.now };

    ghost invariant = { λ p. IfSome p.precomputed (IsOf p.tris.now) };
}

/// Where bounds of a triangle's depth keys hold.
#[derive(Clone, Copy)]
pub(crate) enum Scope {
    /// In the whole triangle. These are at hand.
    Triangle,
    /// In one pixel. These are narrower, and worked out from the plane.
    Pixel,
}

/// What depth keys lie between.
#[derive(Clone, Copy)]
pub(crate) struct Bounds {
    pub(crate) low: u32,
    pub(crate) high: u32,
}

/// The least and the greatest depth value of a triangle.
#[inline(always)]
fn depth_range(t: &ScreenTri) -> Bounds
    ensures value { result ≡ depth_range t.now }
    ensures low { HasNoKeyBelow t.now result.low }
    ensures high { HasNoKeyAbove t.now result.high }
    ensures rising { result.low ≤ result.high }
    ensures small { result.high ≤ MAX_DEPTH }
{
    Bounds {
        low: t.min_depth(),
        high: t.max_depth(),
    }
}

/// What is precomputed for the triangles, on one thread, with memory for so many.
fn precompute(alloc: Global, tris: &[ScreenTri], room: usize) -> Result<Precomputed, NoMemory>
    ensures { IfOk result (IsOf tris.now) }
{
    let mut planes = Vec::with_capacity(alloc, room)?;
    let mut ranges = Vec::with_capacity(alloc, room)?;
    for t in tris {
        planes.push(DepthPlane::new(t))?;
        ranges.push(depth_range(t))?;
    }
    Ok(Precomputed { planes, ranges })
}

impl Precomputed {
    ghost use Rattle.std.specs.Prelude.{List, ◌++◌, IfOk};
    ghost use Rattle.abuf_raster.specs.Triangle.{Triangle};
    ghost use Rattle.abuf_resolve.specs.Precomputed.{IsOf};

    /// What is precomputed for some triangles, and then for others.
    fn followed_by(self, others: Precomputed) -> Result<Precomputed, NoMemory>
        ensures { (xs ys : List Triangle) → IsOf xs self → IsOf ys others → IfOk result (IsOf (xs ++ ys)) }
    {
        let Precomputed {
            mut planes,
            mut ranges,
        } = self;
        let mut later = others;
        planes.append(&mut later.planes)?;
        ranges.append(&mut later.ranges)?;
        Ok(Precomputed { planes, ranges })
    }
}

/// From how many triangles on threads share them: for fewer, starting threads takes longer.
const MANY: usize = 16384;

/// What is precomputed for the triangles, by so many threads, with memory for so many. The caller takes the first part, which has room for
/// the others, and starts all threads itself.
fn precompute_on_threads<R: Threads + Sync>(
    rt: &R,
    alloc: Global,
    tris: &[ScreenTri],
    threads: u32,
    room: usize,
) -> Result<Precomputed, NoMemory>
    requires few { length tris.now ≤ MAX_PRIMITIVES }
    requires threads { (1 ≤ threads) × (threads ≤ MAX_THREADS) }
    ensures { IfOk result (IsOf tris.now) }
{
    if threads == 1 || tris.len() < MANY {
        return precompute(alloc, tris, room);
    }
    let left = threads - 1;
    let (front, back) = tris.split_at(tris.len() * left as usize / threads as usize);
    let (others, first) = join(
        rt,
        move || -> Result<Precomputed, NoMemory>
            ensures { IfOk result (IsOf back.entry.now) }
        { precompute(alloc, back, back.len()) },
        move || -> Result<Precomputed, NoMemory>
            requires { IsSync R.row × CanShare front.now left }
            ensures { IfOk result (IsOf front.entry.now) }
        { precompute_on_threads(rt, alloc, front, left, room) },
    );
    let first = first?;
    let others = others?;
    let all = first.followed_by(others)?;
    Ok(all)
}

impl<'a> Planes<'a> {
    /// At most 2097152 triangles, made ready for many keys of each on 1 to 64 threads. An error means that memory ran out.
    pub fn new<R: Threads + Sync>(
        rt: &R,
        alloc: Global,
        tris: &'a [ScreenTri],
        threads: u32,
    ) -> Result<Planes<'a>, NoMemory>
        requires few { length tris.now ≤ MAX_PRIMITIVES }
        requires threads { (1 ≤ threads) × (threads ≤ MAX_THREADS) }
        ensures { IfOk result (λ planes. planes ≡ tris.now) }
    {
        let precomputed = precompute_on_threads(rt, alloc, tris, threads, tris.len())?;
        Ok(Planes {
            tris,
            precomputed: Some(precomputed),
        })
    }

    /// The triangles for few keys: nothing is worked out before it is asked for, and it takes no memory.
    pub fn on_demand(tris: &'a [ScreenTri]) -> Planes<'a>
        ensures { result ≡ tris.now }
    {
        Planes {
            tris,
            precomputed: None,
        }
    }

    fn triangles(&self) -> &[ScreenTri]
        ensures { result.now ≡ self.now }
    {
        self.tris
    }

    /// The depth key, by a plane that is made for it.
    #[inline(never)]
    fn key_on_demand(t: &ScreenTri, at: Pixel, pattern: Pattern, k: u32) -> u32
        requires sample { k < length (offsets_of pattern) }
        requires covered { covers t.now (offsets_of pattern) at.x at.y k ≡ true }
        ensures key { result ≡ depth_key t.now (offsets_of pattern) at.x at.y k }
        ensures small { result ≤ MAX_DEPTH }
    {
        DepthPlane::new(t).key(t, at.x, at.y, pattern, k)
    }

    /// The depth key of triangle `prim` at sample k of a pixel, which it covers.
    #[inline(always)]
    pub(crate) fn key(&self, prim: u32, at: Pixel, pattern: Pattern, k: u32) -> u32
        requires prim { prim < length self.now }
        requires sample { k < length (offsets_of pattern) }
        requires covered { covers (triangle_at self.now prim) (offsets_of pattern) at.x at.y k ≡ true }
        ensures key { result ≡ depth_key (triangle_at self.now prim) (offsets_of pattern) at.x at.y k }
        ensures small { result ≤ MAX_DEPTH }
    {
        let t = &self.triangles()[prim as usize];
        match &self.precomputed {
            Some(precomputed) => precomputed.planes[prim as usize].key(t, at.x, at.y, pattern, k),
            None => Planes::key_on_demand(t, at, pattern, k),
        }
    }

    /// The least and the greatest depth value of triangle `prim`, between which all of its keys lie.
    #[inline(always)]
    fn range(&self, prim: u32) -> Bounds
        requires prim { prim < length self.now }
        ensures low { HasNoKeyBelow (triangle_at self.now prim) result.low }
        ensures high { HasNoKeyAbove (triangle_at self.now prim) result.high }
        ensures rising { result.low ≤ result.high }
        ensures small { result.high ≤ MAX_DEPTH }
    {
        match &self.precomputed {
            Some(precomputed) => precomputed.ranges[prim as usize],
            None => depth_range(&self.triangles()[prim as usize]),
        }
    }

    /// At least as much as the word of triangle `prim` in any sample that it covers.
    #[inline(always)]
    pub(crate) fn max_word(&self, prim: u32) -> u64
        requires few { length self.now ≤ MAX_PRIMITIVES }
        requires prim { prim < length self.now }
        ensures { NoWordAbove self.now prim result }
    {
        SampleWord::new(self.range(prim).high, u64::from(prim)).0
    }

    /// Bounds of the depth keys of triangle `prim` at the samples of a pixel that it covers, from its plane.
    fn pixel_bounds(&self, prim: u32, at: Pixel, pattern: Pattern) -> Bounds
        requires prim { prim < length self.now }
        ensures rising { result.low ≤ result.high }
        ensures small { result.high ≤ MAX_DEPTH }
        ensures low { NoKeyBelow (triangle_at self.now prim) (offsets_of pattern) at.x at.y result.low }
        ensures high { NoKeyAbove (triangle_at self.now prim) (offsets_of pattern) at.x at.y result.high }
    {
        let t = &self.triangles()[prim as usize];
        let (low, high) = match &self.precomputed {
            Some(precomputed) => precomputed.planes[prim as usize].bounds(t, at.x, at.y, pattern),
            None => DepthPlane::new(t).bounds(t, at.x, at.y, pattern),
        };
        Bounds { low, high }
    }

    /// Bounds of the depth keys of triangle `prim` that hold at the samples of a pixel that it covers.
    pub(crate) fn bounds(&self, prim: u32, at: Pixel, pattern: Pattern, scope: Scope) -> Bounds
        requires prim { prim < length self.now }
        ensures rising { result.low ≤ result.high }
        ensures small { result.high ≤ MAX_DEPTH }
        ensures low { NoKeyBelow (triangle_at self.now prim) (offsets_of pattern) at.x at.y result.low }
        ensures high { NoKeyAbove (triangle_at self.now prim) (offsets_of pattern) at.x at.y result.high }
    {
        match scope {
            Scope::Triangle => self.range(prim),
            Scope::Pixel => self.pixel_bounds(prim, at, pattern),
        }
    }

    /// The fragment of this word in sample k, which it has, as a word: its depth key there times 2^24, plus its primitive number.
    #[inline(always)]
    pub(crate) fn sample_word(&self, word: u64, at: Pixel, pattern: Pattern, k: u32) -> u64
        requires few { length self.now ≤ MAX_PRIMITIVES }
        requires sample { k < length (offsets_of pattern) }
        requires word { IsFragmentAt (offsets_of pattern) self.now at.x at.y word }
        requires has { has_sample k word ≡ true }
        ensures value { result ≡ sample_word (offsets_of pattern) self.now at.x at.y k word }
        ensures fits { IsDepthWord (length self.now) result }
    {
        let prim = FragmentWord(word).primitive();
        let depth = self.key(prim as u32, at, pattern, k);
        SampleWord::new(depth, prim).0
    }

    /// The fragments of a pixel that have sample k, from the farthest to the nearest. Each is a word: its depth key there times
    /// 2^24, plus its primitive number; the greater key is nearer, and of equal keys the lower number lies beneath. The list has
    /// the words of the pixel's fragments in any order, with samples alone that their triangles cover. An error means that
    /// memory for the buffer ran out.
    pub fn sample_words(
        &self,
        keys: &mut Vec<u64>,
        list: &[u64],
        at: Pixel,
        pattern: Pattern,
        k: u32,
    ) -> Result<(), NoMemory>
        requires few { length self.now ≤ MAX_PRIMITIVES }
        requires sample { k < length (offsets_of pattern) }
        requires words { All (IsFragmentAt (offsets_of pattern) self.now at.x at.y) list.now }
        ensures value { IfOk result (λ _. keys.new.items ≡ in_order nat_lt (sample_words (offsets_of pattern) self.now at.x at.y k list.now)) }
        ensures fits { IfOk result (λ _. All (IsDepthWord (length self.now)) keys.new.items) }
        ensures ascending { IfOk result (λ _. IsNonDecreasing keys.new.items) }
    {
        keys.clear();
        for word in list {
            if FragmentWord(*word).covers(k) {
                keys.push(self.sample_word(*word, at, pattern, k))?;
            }
        }
        put_in_order(keys);
        Ok(())
    }
}
