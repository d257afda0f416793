// A scene that was read.
use crate::drawing::Drawing;
use crate::stop::Stop;
use crate::task::Task;
use abuf_cli::{Job, What};
use abuf_mtl::Materials;
use abuf_obj::FlatObj;
use abuf_view::{FlatScene, Room};
use std::alloc::Global;
use std::thread::Threads;

/// A scene and the materials of its libraries. It isn't projected yet; the room is for its primitives.
#[derive(Drop)]
pub(crate) struct Loaded {
    pub(crate) room: Room,
    pub(crate) obj: FlatObj,
    pub(crate) materials: Materials,
}

impl Loaded {
    ghost use Rattle.std.specs.Prelude.{◌≡◌, List as Items, ℕ, IfErr, IfOk, Ok};
    ghost use Rattle.abuf_obj.specs.Sound.{IsScene};
    ghost use Rattle.abuf_mtl.specs.StandsFor.{StandsFor};
    ghost use Rattle.abuf_cli.specs.declared.job.Command.TheVariants as command;
    ghost use Rattle.abuf_top.specs.Prepared.{Gives, IsTaskOf};
    ghost use Rattle.abuf_top.specs.Stopped.{HasReadCause};
    ghost use Rattle.abuf_top.specs.Verdict.{material_verdict, drawing_verdict};

    /// The drawing of the scene, which is projected on the job's threads. What was read of the file is freed.
    pub(crate) fn drawing<R: Threads + Sync>(
        self,
        rt: &R,
        alloc: Global,
        job: Job,
        what: What,
    ) -> Result<Task, Stop>
        requires scene { IsScene self.obj }
        requires command { job.command ≡ command.Draw what }
        ensures told { (libraries : Items (Items ℕ)) → StandsFor libraries self.materials
            → Gives (drawing_verdict job what (material_verdict self.obj libraries)) ⊥ result }
        ensures cause { IfErr result (HasReadCause ⊥) }
        ensures own { IfOk result (IsTaskOf (Ok job)) }
    {
        let Loaded {
            room,
            obj,
            materials,
        } = self;
        let scene = FlatScene::new(alloc, obj, &materials)?;
        drop(materials);
        let Ok(projected) = scene.project(rt, room, job.camera(), job.threads()) else {
            return Err(Stop::Memory);
        };
        drop(scene);
        Ok(Task::Draw(Drawing::new(job, what, projected)))
    }
}
