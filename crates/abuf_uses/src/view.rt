// A scene before a camera.
ghost use Rattle.std.specs.Prelude.{◌≡◌, ◌-◌, ◌^◌, ◌<◌, IfErr, IfOk, length, map};
ghost use Rattle.abuf_uses.specs.Seen.{IsFault, seen};

use crate::fault::NoImage;
use abuf_mtl::{Materials, read_mtl};
use abuf_num::NoMemory;
use abuf_obj::read_flat;
use abuf_scene::SceneFault;
use abuf_view::{Camera, FlatScene, Projected, Room};
use std::alloc::Global;
use std::thread::Threads;

/// The primitives of a scene that has one library, from the bytes of both files.
pub fn seen_by<R: Threads + Sync>(
    rt: &R,
    alloc: Global,
    scene: &[u8],
    library: &[u8],
    camera: &Camera,
) -> Result<Projected, NoImage>
    requires sizes { (length scene.now < 2 ^ 32 - 1) × (length library.now < 2 ^ 32 - 1) }
    ensures tris { IfOk result (λ p. p.tris ≡ map (λ q. q.triangle) (seen camera.now scene.now library.now)) }
    ensures paints { IfOk result (λ p. p.paints ≡ map (λ q. q.paint) (seen camera.now scene.now library.now)) }
    ensures fault { IfErr result (IsFault scene.now library.now) }
{
    let obj = read_flat(alloc, scene)?;
    let mut materials = Materials::new(alloc);
    read_mtl(alloc, library, &mut materials)?;
    let flat = FlatScene::new(alloc, obj, &materials)?;
    let room = Room::new(alloc, flat.triangle_count());
    match flat.project(rt, room, camera, 2) {
        Ok(projected) => Ok(projected),
        Err(NoMemory) => Err(NoImage::Material(SceneFault::Memory)),
    }
}
