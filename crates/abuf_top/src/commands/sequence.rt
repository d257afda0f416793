// `sequence`: an image for each shot of a path.
ghost use Rattle.std.specs.Prelude.{◌≡◌, ◌≤◌, ◌+◌, All, List as Items, ℕ, length, true, option_map, IfOk, IfErr, Ok};
ghost use Rattle.abuf_num.specs.declared.limits.TheConstants.{MAX_PATH_BYTES, MAX_IMAGES};
ghost use Rattle.abuf_io.specs.Causes.{Rose};
ghost use Rattle.abuf_io.specs.Sinks.{sink_change};
ghost use Rattle.abuf_obj.specs.Sound.{IsScene};
ghost use Rattle.abuf_mtl.specs.StandsFor.{StandsFor};
ghost use Rattle.abuf_sequence.specs.Paths.{path, IsShot};
ghost use Rattle.abuf_sequence.specs.Sequences.{IsPlan};
ghost use Rattle.abuf_cli.specs.Job.{Job as Asked};
ghost use Rattle.abuf_top.specs.Ending.{Ends};
ghost use Rattle.abuf_top.specs.Fetches.{scene_demand, sequence_demand};
ghost use Rattle.abuf_top.specs.Images.{plan_of};
ghost use Rattle.abuf_top.specs.Libraries.{told_by};
ghost use Rattle.abuf_top.specs.Outside.{source_change, shelf_change};
ghost use Rattle.abuf_top.specs.Paths.{path_verdict, shots_by};
ghost use Rattle.abuf_top.specs.Prepared.{Gives, IsSequence, IsTaskOf};
ghost use Rattle.abuf_top.specs.Reads.{PreparesBy};
ghost use Rattle.abuf_top.specs.Stopped.{HasCause, HasReadCause, IsOfDrawing};
ghost use Rattle.abuf_top.specs.Verdict.{images_verdict, material_verdict, scene_read, sequence_verdict, pools_verdict};

use crate::load::read_scene;
use crate::loaded::Loaded;
use crate::stop::{FullPool, Refusal, Stop};
use crate::task::Task;
use abuf_cli::Job;
use abuf_io::{Fetch, Shelf, Sink, Source};
use abuf_num::List;
use abuf_num::limits::MAX_PATH_BYTES;
use abuf_sequence::{PathFault, Plan, SequenceFault, Shot, read_path, sequence_flat};
use abuf_view::FlatScene;
use std::alloc::Global;
use std::marker::Model;
use std::thread::Threads;

/// A scene, and how its images are drawn.
#[derive(Drop)]
pub(crate) struct Images {
    scene: FlatScene,
    shots: List<Shot>,
    plan: Plan,
}

impl Model for Images {
    ghost use Rattle.abuf_top.specs.Images.{Images, AreSound};

    ghost Value = { Images };

    ghost view = { λ i. record { plan = i.plan; triangles = i.scene; shots = i.shots } };

    ghost invariant = { λ i. AreSound i.plan i.scene i.shots };
}

impl Images {
    ghost use Rattle.std.specs.Prelude.{◌≡◌, ◌≤◌, All, length, Some};
    ghost use Rattle.abuf_num.specs.declared.limits.TheConstants.{MAX_IMAGES};
    ghost use Rattle.abuf_sequence.specs.Paths.{IsShot};
    ghost use Rattle.abuf_sequence.specs.Sequences.{IsPlan, IsSequenceAnswer};
    ghost use Rattle.abuf_view.specs.Primitives.{AreInLimits};
    ghost use Rattle.abuf_io.specs.Sinks.{sink_change};

    /// The images of these shots.
    fn new(scene: FlatScene, shots: List<Shot>, plan: Plan) -> Images
        requires scene { AreInLimits scene }
        requires shots { All IsShot shots }
        requires few_shots { length shots ≤ MAX_IMAGES }
        requires plan { IsPlan plan }
        ensures { result ≡ record { plan = plan; triangles = scene; shots = shots } }
    {
        Images { scene, shots, plan }
    }

    /// Draws and writes one image after another.
    fn write<R: Threads + Sync, O: Sink>(
        &self,
        rt: &R,
        alloc: Global,
        out: &mut O,
    ) -> Result<(), SequenceFault>
        ensures { IsSequenceAnswer self.now.plan self.now.triangles self.now.shots (sink_change O.taken O.faults out.old out.new) result }
    {
        sequence_flat(
            rt,
            alloc,
            &self.scene,
            self.shots.as_slice(),
            &self.plan,
            out,
        )
    }
}

/// The shots of the bytes of a path.
fn read_shots(alloc: Global, content: &[u8]) -> Result<List<Shot>, Stop>
    requires { length content.now ≤ MAX_PATH_BYTES }
    ensures told { Gives (shots_by (path content.now)) ⊥ result }
    ensures cause { (job : Asked) → IfErr result (HasCause (Ok job) ⊥) }
    ensures shots { IfOk result (All IsShot) }
    ensures few { IfOk result (λ shots. length shots ≤ MAX_IMAGES) }
{
    match read_path(alloc, content) {
        Ok(shots) => Ok(shots),
        Err(PathFault::Line { line, why }) => Err(Stop::Refused(Refusal::PathLine(line, why))),
        Err(PathFault::Memory) => Err(Stop::Memory),
    }
}

/// The shots of the path of this name.
fn fetch_path<H: Shelf>(alloc: Global, shelf: &mut H, name: &[u8]) -> Result<List<Shot>, Stop>
    ensures told { H.tells shelf.old ≡ true →
        Gives (path_verdict (H.holds shelf.old name.now)) (Rose (H.faults shelf.old) (H.faults shelf.new)) result }
    ensures cause { (job : Asked) → IfErr result (HasCause (Ok job) (Rose (H.faults shelf.old) (H.faults shelf.new))) }
    ensures shots { IfOk result (All IsShot) }
    ensures few { IfOk result (λ shots. length shots ≤ MAX_IMAGES) }
    ensures held { told_by (H.tells shelf.new) (H.holds shelf.new) ≡ told_by (H.tells shelf.old) (H.holds shelf.old) }
    ensures calls { H.calls shelf.new ≤ H.calls shelf.old + 1 }
    ensures later { H.faults shelf.old ≤ H.faults shelf.new }
{
    match shelf.fetch(alloc, name, MAX_PATH_BYTES) {
        Ok(content) => read_shots(alloc, content.as_slice()),
        Err(Fetch::Missing) => Err(Stop::Refused(Refusal::PathMissing)),
        Err(Fetch::TooLong) => Err(Stop::Refused(Refusal::PathTooLong)),
        Err(Fetch::Failed) => Err(Stop::ReadFault),
        Err(Fetch::Memory) => Err(Stop::Memory),
    }
}

/// The plan of a job.
fn plan_of(job: &Job) -> Plan
    ensures value { result ≡ plan_of job.now }
    ensures sound { IsPlan result }
{
    let background = job.background();
    Plan {
        width: job.camera().width(),
        height: job.camera().height(),
        focal: job.camera().focal(),
        near: job.camera().near(),
        pattern: job.pattern(),
        background,
        nodes: job.nodes(),
        threads: job.threads(),
        maxval: job.maxval(),
    }
}

/// The images of these shots of a scene. What was read of its file is freed.
fn images_of(alloc: Global, job: &Job, shots: List<Shot>, loaded: Loaded) -> Result<Task, Stop>
    requires scene { IsScene loaded.obj }
    requires command { IsSequence job.now.command }
    requires shots { All IsShot shots }
    requires few_shots { length shots ≤ MAX_IMAGES }
    ensures told { (libraries : Items (Items ℕ)) → StandsFor libraries loaded.materials
        → Gives (images_verdict job.now shots (material_verdict loaded.obj libraries)) ⊥ result }
    ensures cause { IfErr result (HasReadCause ⊥) }
    ensures own { IfOk result (IsTaskOf (Ok job.now)) }
{
    let Loaded {
        room: _,
        obj,
        materials,
    } = loaded;
    let scene = FlatScene::new(alloc, obj, &materials)?;
    Ok(Task::Sequence(Images::new(scene, shots, plan_of(job))))
}

/// The images of these shots of the scene that the source has left.
fn read_images<R: Threads + Sync, S: Source, H: Shelf>(
    rt: &R,
    alloc: Global,
    job: &Job,
    shots: List<Shot>,
    scene: &mut S,
    shelf: &mut H,
) -> Result<Task, Stop>
    requires command { IsSequence job.now.command }
    requires shots { All IsShot shots }
    requires few_shots { length shots ≤ MAX_IMAGES }
    ensures { PreparesBy (λ left held. option_map (images_verdict job.now shots) (scene_read left held)) scene_demand (Ok job.now)
        (source_change S.left S.faults scene.old scene.new) (shelf_change H.tells H.holds H.calls H.faults shelf.old shelf.new) result }
{
    let loaded = read_scene(rt, alloc, scene, shelf, job.threads())?;
    images_of(alloc, job, shots, loaded)
}

/// The images of a job's path. The path comes first: where it is refused, the scene isn't read. The scene and its libraries
/// are read and refused by also where the path has no shots.
pub(crate) fn prepare_images<R: Threads + Sync, S: Source, H: Shelf>(
    rt: &R,
    alloc: Global,
    job: &Job,
    name: &[u8],
    scene: &mut S,
    shelf: &mut H,
) -> Result<Task, Stop>
    requires { IsSequence job.now.command }
    ensures { PreparesBy (sequence_verdict job.now name.now) (sequence_demand name.now) (Ok job.now)
        (source_change S.left S.faults scene.old scene.new) (shelf_change H.tells H.holds H.calls H.faults shelf.old shelf.new) result }
{
    let shots = fetch_path(alloc, shelf, name)?;
    read_images(rt, alloc, job, shots, scene, shelf)
}

/// Writes the images, up to the first that is full.
pub(crate) fn write_images<R: Threads + Sync, O: Sink>(
    rt: &R,
    alloc: Global,
    images: &Images,
    out: &mut O,
) -> Result<(), Stop>
    ensures ends { Ends (pools_verdict images.now) ⊥ (sink_change O.taken O.faults out.old out.new) result }
    ensures stops { IfErr result IsOfDrawing }
{
    match images.write(rt, alloc, out) {
        Ok(()) => Ok(()),
        Err(
            SequenceFault::Full {
                image,
                fragments,
                nodes,
            },
        ) => {
            Err(Stop::PoolFull(FullPool::InSequence {
                image,
                fragments,
                nodes,
            }))
        }
        Err(SequenceFault::Write) => Err(Stop::WriteFault),
        Err(SequenceFault::Memory { .. }) => Err(Stop::Memory),
    }
}
