// A scene as its file has it.
ghost use Rattle.std.specs.Prelude.{◌≡◌, ◌≤◌, List as Items, ℕ, length, map, None, OnOk, IfOk, IfErr};
ghost use Rattle.abuf_num.specs.declared.limits.TheConstants.{MAX_THREADS};
ghost use Rattle.abuf_obj.specs.Sound.{IsScene};
ghost use Rattle.abuf_mtl.specs.StandsFor.{StandsFor};
ghost use Rattle.abuf_scene.specs.Triangles.{triangles, unknown, Tells};
ghost use Rattle.abuf_view.specs.Primitives.{prims, AreInLimits};

use crate::camera::Camera;
use crate::palette::Palette;
use crate::point_table::PointTable;
use crate::projection::Projected;
use crate::room::Room;
use crate::threads::{MIN_FACES, all_faces, faces_per_chunk};
use abuf_mtl::Materials;
use abuf_num::NoMemory;
use abuf_obj::FlatObj;
use abuf_scene::SceneFault;
use std::alloc::Global;
use std::marker::Model;
use std::thread::Threads;

/// A scene as its file has it: points and faces, and the paint of each name. It stands for the triangles that
/// [`assemble`](abuf_scene::assemble) makes, but no list of them is made, which would take 80 bytes each. Clauses see that list. A
/// `&FlatScene` may be shared between threads.
#[derive(Drop)]
pub struct FlatScene {
    obj: FlatObj,
    palette: Palette,
}

impl Model for FlatScene {
    ghost use Rattle.std.specs.Prelude.{◌≡◌, List as Items, None};
    ghost use Rattle.abuf_obj.specs.Sound.{IsScene};
    ghost use Rattle.abuf_scene.specs.Lookup.{look_up};
    ghost use Rattle.abuf_scene.specs.Triangles.{triangles_by, unknown_by};
    ghost use Rattle.abuf_scene.specs.declared.triangles.Triangle.{Triangle};

    ghost Value = { Items Triangle };

    ghost view = { λ s. triangles_by (look_up s.palette.materials.value) s.obj };

    ghost invariant = { λ s.
        IsScene s.obj × (s.palette.names.value ≡ s.obj.names) × (unknown_by (look_up s.palette.materials.value) s.obj ≡ None) };
}

impl FlatScene {
    /// The scene of what was read, or the line of the first face whose name has no material. The materials are not needed later.
    /// What [`read_flat`](abuf_obj::read_flat) read is a scene as is asked.
    pub fn new(alloc: Global, obj: FlatObj, materials: &Materials) -> Result<FlatScene, SceneFault>
        requires scene { IsScene obj }
        ensures fault { (libraries : Items (Items ℕ)) → StandsFor libraries materials.now → IfErr result (Tells (unknown libraries obj)) }
        ensures known { (libraries : Items (Items ℕ)) → StandsFor libraries materials.now → OnOk result (unknown libraries obj ≡ None) }
        ensures triangles { (libraries : Items (Items ℕ)) → StandsFor libraries materials.now →
            IfOk result (λ s. s ≡ triangles libraries obj) }
        ensures limits { IfOk result AreInLimits }
    {
        let palette = Palette::new(alloc, obj.names(), materials)?;
        match palette.first_unknown(&obj) {
            Some(line) => Err(SceneFault::UnknownMaterial { line }),
            None => Ok(FlatScene { obj, palette }),
        }
    }

    /// How many triangles there are.
    pub fn triangle_count(&self) -> usize
        ensures { result ≡ length self.now }
    {
        let faces = self.obj.faces();
        faces.corner_count() - 2 * faces.len()
    }

    /// What [`project`](crate::project) gives of the triangles: their primitives, in order. A point that several faces share is
    /// computed once. The faces are shared among 1 to 64 workers, and the answer is the same for every number of them; where there
    /// are few, one worker has them all. The primitives are made in the room. The only error is that memory runs out.
    pub fn project<R: Threads + Sync>(
        &self,
        rt: &R,
        room: Room,
        camera: &Camera,
        threads: u32,
    ) -> Result<Projected, NoMemory>
        requires threads { (1 ≤ threads) × (threads ≤ MAX_THREADS) }
        ensures tris { IfOk result (λ p. p.tris ≡ map (λ q. q.triangle) (prims camera.now self.now)) }
        ensures paints { IfOk result (λ p. p.paints ≡ map (λ q. q.paint) (prims camera.now self.now)) }
    {
        let alloc = room.alloc;
        let faces = self.obj.faces().len();
        let table = PointTable::new(rt, alloc, camera.eye(), self.obj.points(), faces, threads)?;
        let per_chunk = faces_per_chunk(faces, MIN_FACES, threads);
        let made = all_faces(rt, room, &table, &self.obj, &self.palette, per_chunk)?;
        Ok(made.into_projected())
    }
}
