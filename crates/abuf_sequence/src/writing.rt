// The images of a sequence, several drawn at once, and written one after another.
ghost use Rattle.std.specs.Prelude.{◌≡◌, ◌+◌, ◌<◌, ◌≤◌, length, map, IfOk};
ghost use Rattle.std.specs.List.{All};
ghost use Rattle.abuf_num.specs.declared.limits.TheConstants.{MAX_IMAGES};
ghost use Rattle.abuf_sequence.specs.Paths.{IsShot};
ghost use Rattle.abuf_io.specs.Sinks.{sink_change};
ghost use Rattle.abuf_sequence.specs.Sequences.{IsPlan, IsSequenceAnswer};
ghost use Rattle.abuf_sequence.specs.Single.{WritesDrawn};
ghost use Rattle.abuf_sequence.specs.Batches.{AreDrawn, Continues, MayDraw, shot_of};
ghost use Rattle.abuf_view.specs.Primitives.{AreInLimits};
ghost use denote.Param.Send.{IsSync};

use crate::fault::{ImageFault, SequenceFault};
use crate::image::draw_image;
use crate::job::{Drawn, Job};
use crate::path::Shot;
use crate::plan::Plan;
use crate::subject::Subject;
use abuf_frame::Closed;
use abuf_io::{Sink, write_all};
use abuf_num::NoMemory;
use abuf_scene::Scene;
use abuf_share::map_jobs;
use abuf_view::FlatScene;
use std::alloc::Global;
use std::thread::Threads;

/// What the images that are drawn at once may have together, so that the memory of a run stays below 2 GB. A frame takes 16 bytes a
/// node and 8 a pixel, twice while it is made, and an image 18 bytes a pixel: at most 1.2 GB for so many nodes and pixels. A frame
/// that is kept from an image before is dropped before the next is made, so there is never more than one for an image. A primitive
/// takes about 130 bytes, and a triangle has at most two; a table of points has at most two for each face, of 16 bytes each: at most
/// 0.7 GB for so many triangles.
const NODES_AND_PIXELS_AT_ONCE: u32 = 33554432;

const TRIANGLES_AT_ONCE: usize = 2097152;

/// How many images are drawn at once: one for each thread, as far as memory goes.
fn images_at_once(plan: &Plan, triangles: usize) -> usize
    requires { IsPlan plan.now }
    ensures { (1 ≤ result) × (result ≤ plan.now.threads) }
{
    let frames = NODES_AND_PIXELS_AT_ONCE / (plan.nodes + plan.width * plan.height);
    let lists = TRIANGLES_AT_ONCE / triangles.max(1);
    (plan.threads.min(frames) as usize).min(lists).max(1)
}

/// The frame that an image was drawn into. The image is dropped.
fn frame_of(drawn: Option<Drawn>) -> Option<Closed> {
    match drawn {
        Some(drawn) => drawn.kept,
        None => None,
    }
}

/// The job of a shot, with the frame of an image that was written before, if there is one.
fn job_of(shot: Shot, written: Option<Drawn>) -> Job
    ensures { result.shot ≡ shot }
{
    Job {
        shot,
        kept: frame_of(written),
    }
}

/// A job for each shot, with the frame of an image that was written before, as far as there are any. The images are dropped.
fn jobs_of(alloc: Global, shots: &[Shot], written: Vec<Drawn>) -> Result<Vec<Job>, NoMemory>
    requires { All IsShot shots.now }
    ensures shots { IfOk result (λ jobs. map shot_of jobs.items ≡ shots.now) }
    ensures each { IfOk result (λ jobs. All (λ job. IsShot job.shot) jobs.items) }
{
    let mut written = written;
    let mut jobs = Vec::with_capacity(alloc, shots.len())?;
    for shot in shots {
        let job = job_of(*shot, written.pop());
        jobs.push(job)?;
    }
    Ok(jobs)
}

/// The images of some shots, all drawn at once: each by a thread of its own, or by several where there are fewer images than
/// threads. They are drawn into the frames of images that were written before, where these serve.
fn draw_batch<R: Threads + Sync, S: Subject + Sync>(
    rt: &R,
    alloc: Global,
    scene: &S,
    shots: &[Shot],
    plan: &Plan,
    written: Vec<Drawn>,
) -> Result<Vec<Drawn>, NoMemory>
    requires scene { AreInLimits (S.triangles scene.now) }
    requires shots { All IsShot shots.now }
    requires some { (1 ≤ length shots.now) × (length shots.now ≤ plan.now.threads) }
    requires plan { IsPlan plan.now }
    ensures { IfOk result (λ drawn. AreDrawn plan.now (S.triangles scene.now) shots.now drawn.items) }
{
    let threads = plan.threads / shots.len() as u32;
    let jobs = jobs_of(alloc, shots, written)?;
    let drawn = map_jobs(
        rt,
        alloc,
        jobs,
        &|job|
            requires { IsSync R.row × IsSync S.row × MayDraw plan.now (S.triangles scene.now) threads job.shot }
        { draw_image(rt, alloc, scene, job, plan, threads) },
    )?;
    Ok(drawn)
}

/// Writes an image that was drawn.
fn write_image<O: Sink>(drawn: &Drawn, out: &mut O) -> Result<(), ImageFault>
    ensures answer { WritesDrawn (sink_change O.taken O.faults out.old out.new) drawn.now.image result }
    ensures later { O.faults out.old ≤ O.faults out.new }
{
    match &drawn.image {
        Ok(bytes) => match write_all(out, bytes.as_slice()) {
            Ok(()) => Ok(()),
            Err(_) => Err(ImageFault::Write),
        },
        Err(fault) => Err(*fault),
    }
}

/// Writes images that were drawn, one after another, up to the first that is full. So many of their sequence are written before.
fn write_images<O: Sink>(drawn: &[Drawn], before: u32, out: &mut O) -> Result<(), SequenceFault>
    requires { before + length drawn.now ≤ MAX_IMAGES }
    ensures answer { Continues before drawn.now (sink_change O.taken O.faults out.old out.new) result }
    ensures later { O.faults out.old ≤ O.faults out.new }
{
    let mut images = before;
    for image in drawn {
        match write_image(image, out) {
            Ok(()) => images += 1,
            Err(fault) => return Err(fault.after(images)),
        }
    }
    Ok(())
}

/// What [`sequence`] does, of a scene in either form.
fn draw_and_write<R: Threads + Sync, S: Subject + Sync, O: Sink>(
    rt: &R,
    alloc: Global,
    scene: &S,
    shots: &[Shot],
    plan: &Plan,
    out: &mut O,
) -> Result<(), SequenceFault>
    requires scene { AreInLimits (S.triangles scene.now) }
    requires shots { (length shots.now ≤ MAX_IMAGES) × All IsShot shots.now }
    requires plan { IsPlan plan.now }
    ensures answer { IsSequenceAnswer plan.now (S.triangles scene.now) shots.now (sink_change O.taken O.faults out.old out.new) result }
    ensures later { O.faults out.old ≤ O.faults out.new }
{
    let at_once = images_at_once(plan, scene.count());
    let mut images = 0;
    let mut written = Vec::new(alloc);
    while images < shots.len() {
        let end = shots.len().min(images + at_once);
        match draw_batch(rt, alloc, scene, &shots[images..end], plan, written) {
            Ok(drawn) => {
                write_images(&drawn, images as u32, out)?;
                written = drawn;
            }
            Err(fault) => return Err(ImageFault::from(fault).after(images as u32)),
        }
        images = end;
    }
    Ok(())
}

/// Draws the image of each shot, and writes it to `out` by one call, in order. As many images are drawn at once as there are
/// threads and memory for. When they are written, their memory is freed before the next are begun. Only their frames are kept, and
/// the next images are drawn into these.
///
/// An image with more fragments than there are nodes ends the sequence, and so does a sink that fails, and memory that runs out;
/// see [`SequenceFault`]. Without shots nothing is written.
pub fn sequence<R: Threads + Sync, O: Sink>(
    rt: &R,
    alloc: Global,
    scene: &Scene,
    shots: &[Shot],
    plan: &Plan,
    out: &mut O,
) -> Result<(), SequenceFault>
    requires scene { AreInLimits scene.now.triangles }
    requires shots { (length shots.now ≤ MAX_IMAGES) × All IsShot shots.now }
    requires plan { IsPlan plan.now }
    ensures answer { IsSequenceAnswer plan.now scene.now.triangles shots.now (sink_change O.taken O.faults out.old out.new) result }
    ensures later { O.faults out.old ≤ O.faults out.new }
{
    draw_and_write(rt, alloc, scene, shots, plan, out)
}

/// What [`sequence`] does, of a scene as its file has it. For each image a point that several faces share is computed once, and no
/// list of the triangles is made.
pub fn sequence_flat<R: Threads + Sync, O: Sink>(
    rt: &R,
    alloc: Global,
    scene: &FlatScene,
    shots: &[Shot],
    plan: &Plan,
    out: &mut O,
) -> Result<(), SequenceFault>
    requires scene { AreInLimits scene.now }
    requires shots { (length shots.now ≤ MAX_IMAGES) × All IsShot shots.now }
    requires plan { IsPlan plan.now }
    ensures answer { IsSequenceAnswer plan.now scene.now shots.now (sink_change O.taken O.faults out.old out.new) result }
    ensures later { O.faults out.old ≤ O.faults out.new }
{
    draw_and_write(rt, alloc, scene, shots, plan, out)
}
