// The sums of a closed frame.
ghost use Rattle.std.specs.Prelude.{◌≡◌, ◌≤◌, length, IfOk};
ghost use Rattle.std.specs.List.{All};
ghost use denote.Param.Send.{IsSync};
ghost use Rattle.abuf_num.specs.declared.limits.TheConstants.{MAX_PRIMITIVES, MAX_THREADS};
ghost use Rattle.abuf_raster.specs.Samples.{offsets_of};
ghost use Rattle.abuf_resolve.specs.Sums.{IsSmall, region_sums};
ghost use Rattle.abuf_picture.specs.Picture.{IsFrameOf, longest};
ghost use Rattle.abuf_picture.specs.Resolving.{composited, subject, Agrees, FitsIn, IsResolvable, Way};

use crate::primitives::Primitives;
use crate::target::Target;
use abuf_frame::Closed;
use abuf_num::NoMemory;
use abuf_raster::{ScreenTri, region_law};
use abuf_resolve::laws::{lengths_law, sums_law, words_law};
use abuf_resolve::{Planes, Resolved, Shading, resolve_counted};
use std::alloc::Global;
use std::thread::Threads;

/// A way to resolve the lists of a closed frame, each of which has the words of fragments in its pixel, in any order.
pub trait Resolve {
    /// What it gives for lists. It doesn't depend on the number of threads, nor on anything else of the frame.
    ghost gives: { Self → Way };

    /// Resolves the lists, on the target's number of threads. An error means that memory ran out.
    fn resolve<R: Threads + Sync>(
        &self,
        rt: &R,
        alloc: Global,
        primitives: &Primitives,
        target: &Target,
        closed: &Closed,
    ) -> Result<Resolved, NoMemory>
        requires sync { IsSync R.row }
        requires lists { IsResolvable (subject primitives.now target.now) closed.now }
        ensures value { IfOk result (λ all. all ≡ gives self.now (subject primitives.now target.now) closed.now.lists) }
        ensures fits { IfOk result (FitsIn (subject primitives.now target.now)) };
}

/// The way of this renderer: in each sample the paints of the fragments that have it, laid over the background in the order of their
/// depth keys there. The sums don't depend on the order of the lists.
pub struct Compositing;

/// The triangles for the keys of so many fragments: made ready on threads, unless most of them have none.
fn planes_for<'a, R: Threads + Sync>(
    rt: &R,
    alloc: Global,
    triangles: &'a [ScreenTri],
    fragments: u64,
    threads: u32,
) -> Result<Planes<'a>, NoMemory>
    requires few { length triangles.now ≤ MAX_PRIMITIVES }
    requires threads { (1 ≤ threads) × (threads ≤ MAX_THREADS) }
    ensures { IfOk result (λ planes. planes ≡ triangles.now) }
{
    if fragments < triangles.len() as u64 {
        Ok(Planes::on_demand(triangles))
    } else {
        Planes::new(rt, alloc, triangles, threads)
    }
}

impl Resolve for Compositing {
    ghost use Rattle.abuf_picture.specs.Resolving.{composited};

    ghost gives = { λ _. composited };

    fn resolve<R: Threads + Sync>(
        &self,
        rt: &R,
        alloc: Global,
        primitives: &Primitives,
        target: &Target,
        closed: &Closed,
    ) -> Result<Resolved, NoMemory> {
        let Target {
            region,
            pattern,
            background,
            threads,
            ..
        } = *target;
        let fragments = closed.fragments();
        let shading = Shading {
            planes: planes_for(rt, alloc, primitives.triangles, fragments, threads)?,
            paints: primitives.paints,
            pattern,
            background,
        };
        let all = resolve_counted(rt, alloc, closed, region, &shading, threads)?;
        Ok(all)
    }
}

/// The law of compositing. Where lists hold all fragments of the primitives, in any order, it gives the sums of the definition, and the
/// length of the longest list.
pub fn compositing_law(primitives: &Primitives, target: &Target)
    ensures { Agrees composited (subject primitives.now target.now) }
{
    region_law(target.region);
}

/// For each pixel of the region, in order, the sums over its samples, and the length of the longest list, from the closed
/// frame into which the primitives were drawn. The frame must not be full, since then its lists lack fragments. An error means
/// that memory ran out.
pub fn resolve_drawn<R: Threads + Sync>(
    rt: &R,
    alloc: Global,
    primitives: &Primitives,
    target: &Target,
    closed: &Closed,
) -> Result<Resolved, NoMemory>
    requires frame { IsFrameOf primitives.now.triangles.now target.now.pattern target.now.region target.now.nodes closed.now }
    requires not_full { closed.now.fragments ≤ closed.now.nodes }
    ensures sums { IfOk result
        (λ all. all.sums ≡ region_sums (offsets_of target.now.pattern) target.now.background primitives.now.triangles.now primitives.now.paints.now
        target.now.region) }
    ensures small { IfOk result (λ all. All (IsSmall (length (offsets_of target.now.pattern))) all.sums) }
    ensures longest { IfOk result (λ all. all.longest ≡ longest primitives.now.triangles.now target.now.pattern target.now.region) }
{
    let triangles = primitives.triangles;
    let paints = primitives.paints;
    let Target {
        region,
        pattern,
        background,
        ..
    } = *target;
    words_law(closed, triangles, pattern, region);
    sums_law(closed, triangles, paints, pattern, background, region);
    lengths_law(closed, triangles, pattern, region);
    Compositing.resolve(rt, alloc, primitives, target, closed)
}
