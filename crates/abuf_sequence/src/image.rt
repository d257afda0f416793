// One image of a sequence.
ghost use Rattle.std.specs.Prelude.{◌≡◌, ◌≤◌};
ghost use Rattle.std.specs.List.{All};
ghost use Rattle.abuf_num.specs.declared.limits.TheConstants.{MAX_NODES, MAX_THREADS};
ghost use Rattle.abuf_raster.specs.Region.{whole_image};
ghost use Rattle.abuf_view.specs.Primitives.{AreInLimits};
ghost use Rattle.abuf_sequence.specs.Paths.{IsShot};
ghost use Rattle.abuf_sequence.specs.Sequences.{IsPlan, camera_of};
ghost use Rattle.abuf_sequence.specs.Single.{AreBytes, AreSums, IsDrawAnswer};

use crate::fault::ImageFault;
use crate::job::{Drawn, Job};
use crate::path::Shot;
use crate::plan::Plan;
use crate::subject::Subject;
use abuf_fan::OpenGate;
use abuf_frame::Closed;
use abuf_num::{List, PixelSum};
use abuf_pam::image_bytes;
use abuf_picture::{Primitives, Target, redraw, resolve_drawn};
use abuf_raster::Region;
use abuf_view::{Camera, Lens};
use std::alloc::Global;
use std::thread::Threads;

/// The camera of a shot.
fn camera_of(plan: &Plan, shot: Shot) -> Camera
    requires plan { IsPlan plan.now }
    requires shot { IsShot shot }
    ensures { result ≡ camera_of plan.now shot }
{
    let lens = Lens {
        focal: plan.focal,
        near: plan.near,
    };
    Camera::new_unchecked(plan.width, plan.height, shot.turn, shot.shift, lens)
}

/// What an image of a plan is drawn into, with so many nodes, by so many threads.
fn target_of(plan: &Plan, nodes: u32, threads: u32) -> Target
    requires plan { IsPlan plan.now }
    requires nodes { (1 ≤ nodes) × (nodes ≤ MAX_NODES) }
    requires threads { (1 ≤ threads) × (threads ≤ MAX_THREADS) }
    ensures threads { result.threads ≡ threads }
    ensures region { result.region ≡ whole_image plan.now.width plan.now.height }
    ensures pattern { result.pattern ≡ plan.now.pattern }
    ensures background { result.background ≡ plan.now.background }
    ensures nodes { result.nodes ≡ nodes }
{
    Target {
        region: Region::whole_image(plan.width, plan.height),
        pattern: plan.pattern,
        background: plan.background,
        nodes,
        threads,
    }
}

/// The sums of the image's pixels, by so many threads, and the frame into which it was drawn. The primitives are dropped.
#[tactic(auto, unfolding(crate::specs::Sequences::total_of, crate::specs::Sequences::sums_of))]
fn sums_of<R: Threads + Sync, S: Subject>(
    rt: &R,
    alloc: Global,
    scene: &S,
    job: Job,
    plan: &Plan,
    threads: u32,
) -> Result<(List<PixelSum>, Closed), ImageFault>
    requires scene { AreInLimits (S.triangles scene.now) }
    requires plan { IsPlan plan.now }
    requires shot { IsShot job.shot }
    requires threads { (1 ≤ threads) × (threads ≤ MAX_THREADS) }
    ensures { IsDrawAnswer plan.now (S.triangles scene.now) job.shot (λ drawn. AreSums plan.now (S.triangles scene.now) job.shot drawn.0) result }
{
    let Job { shot, kept } = job;
    let camera = camera_of(plan, shot);
    let pool = target_of(plan, plan.nodes, threads);
    let projected = scene.primitives(rt, alloc, &camera, threads)?;
    let primitives = Primitives::of(&projected);
    let closed = redraw(rt, alloc, &primitives, &pool, kept, &OpenGate)?;
    if let Some(full) = closed.full() {
        return Err(ImageFault::Full {
            fragments: full.fragments,
            nodes: full.nodes,
        });
    }
    let target = target_of(plan, closed.nodes(), threads);
    let resolved = resolve_drawn(rt, alloc, &primitives, &target, &closed)?;
    Ok((resolved.sums, closed))
}

/// The bytes of the image, which so many threads draw, and the frame into which it was drawn.
#[tactic(auto, unfolding(crate::specs::Sequences::image_of))]
fn image_of<R: Threads + Sync, S: Subject>(
    rt: &R,
    alloc: Global,
    scene: &S,
    job: Job,
    plan: &Plan,
    threads: u32,
) -> Result<(List<u8>, Closed), ImageFault>
    requires scene { AreInLimits (S.triangles scene.now) }
    requires plan { IsPlan plan.now }
    requires shot { IsShot job.shot }
    requires threads { (1 ≤ threads) × (threads ≤ MAX_THREADS) }
    ensures { IsDrawAnswer plan.now (S.triangles scene.now) job.shot (λ drawn. AreBytes plan.now (S.triangles scene.now) job.shot drawn.0) result }
{
    let (sums, closed) = sums_of(rt, alloc, scene, job, plan, threads)?;
    let bytes = image_bytes(
        alloc,
        plan.width,
        plan.height,
        plan.maxval,
        plan.pattern.size(),
        sums.as_slice(),
    )?;
    Ok((bytes, closed))
}

/// Draws the image of a job, by so many threads.
pub(crate) fn draw_image<R: Threads + Sync, S: Subject>(
    rt: &R,
    alloc: Global,
    scene: &S,
    job: Job,
    plan: &Plan,
    threads: u32,
) -> Drawn
    requires scene { AreInLimits (S.triangles scene.now) }
    requires plan { IsPlan plan.now }
    requires shot { IsShot job.shot }
    requires threads { (1 ≤ threads) × (threads ≤ MAX_THREADS) }
    ensures { IsDrawAnswer plan.now (S.triangles scene.now) job.shot (AreBytes plan.now (S.triangles scene.now) job.shot) result.image }
{
    match image_of(rt, alloc, scene, job, plan, threads) {
        Ok((bytes, closed)) => Drawn {
            image: Ok(bytes),
            kept: Some(closed),
        },
        Err(fault) => Drawn {
            image: Err(fault),
            kept: None,
        },
    }
}
