// What the images of a sequence show.
ghost use Rattle.std.specs.Prelude.{◌≡◌, ◌≤◌, List as Items, length, map, IfOk};
ghost use Rattle.abuf_num.specs.declared.limits.TheConstants.{MAX_THREADS};
ghost use Rattle.abuf_scene.specs.declared.triangles.Triangle.{Triangle};
ghost use Rattle.abuf_view.specs.Primitives.{prims, AreInLimits};
ghost use denote.Param.Send.{IsSync};

use abuf_num::NoMemory;
use abuf_scene::Scene;
use abuf_view::{Camera, FlatScene, Projected, Room, project};
use std::alloc::Global;
use std::thread::Threads;

/// A scene in one of its forms.
pub(crate) trait Subject {
    /// The triangles that it stands for.
    ghost triangles: { Self → Items Triangle };

    /// How many triangles there are.
    fn count(&self) -> usize
        ensures { result ≡ length (triangles self.now) };

    /// The primitives of the triangles, in order, made by at most so many threads.
    fn primitives<R: Threads + Sync>(
        &self,
        rt: &R,
        alloc: Global,
        camera: &Camera,
        threads: u32,
    ) -> Result<Projected, NoMemory>
        requires sync { IsSync R.row }
        requires limits { AreInLimits (triangles self.now) }
        requires threads { (1 ≤ threads) × (threads ≤ MAX_THREADS) }
        ensures tris { IfOk result (λ p. p.tris ≡ map (λ q. q.triangle) (prims camera.now (triangles self.now))) }
        ensures paints { IfOk result (λ p. p.paints ≡ map (λ q. q.paint) (prims camera.now (triangles self.now))) };
}

impl Subject for Scene {
    ghost triangles = { λ s. s.triangles };

    fn count(&self) -> usize {
        self.triangles.as_slice().len()
    }

    fn primitives<R: Threads + Sync>(
        &self,
        _rt: &R,
        alloc: Global,
        camera: &Camera,
        _threads: u32,
    ) -> Result<Projected, NoMemory> {
        project(alloc, self, camera)
    }
}

impl Subject for FlatScene {
    ghost triangles = { λ s. s };

    fn count(&self) -> usize {
        self.triangle_count()
    }

    fn primitives<R: Threads + Sync>(
        &self,
        rt: &R,
        alloc: Global,
        camera: &Camera,
        threads: u32,
    ) -> Result<Projected, NoMemory> {
        self.project(rt, Room::new(alloc, self.triangle_count()), camera, threads)
    }
}
