// A scene's triangles on the screen.
ghost use Rattle.std.specs.Prelude.{◌≡◌, All, map, IfOk};
ghost use Rattle.abuf_scene.specs.Triangles.{IsTriangleInRange};
ghost use Rattle.abuf_view.specs.Primitives.{prims, AreInLimits};

use crate::camera::Camera;
use crate::primitive_lists::PrimitiveLists;
use crate::projection::Projected;
use abuf_num::{List, NoMemory};
use abuf_scene::Scene;
use std::alloc::Global;

/// The primitives of the scene's triangles, in order.
fn project_all(alloc: Global, scene: &Scene, camera: &Camera) -> Result<PrimitiveLists, NoMemory>
    requires { All IsTriangleInRange scene.now.triangles }
    ensures tris { IfOk result (λ p. p.tris ≡ map (λ q. q.triangle) (prims camera.now scene.now.triangles)) }
    ensures paints { IfOk result (λ p. p.paints ≡ map (λ q. q.paint) (prims camera.now scene.now.triangles)) }
{
    let eye = camera.eye();
    let mut made = PrimitiveLists {
        tris: List::new(alloc),
        paints: List::new(alloc),
    };
    for triangle in scene.triangles.as_slice() {
        made.push_triangle(&eye, triangle)?;
    }
    Ok(made)
}

/// The primitives of the scene's triangles, in order, each with the paint of its triangle: none, one or two of a triangle, by the
/// corners that are in front of the near plane. The only error is that memory runs out.
///
/// What [`assemble`](abuf_scene::assemble) makes of a file that [`read_obj`](abuf_obj::read_obj) read is in the limits that are asked.
pub fn project(alloc: Global, scene: &Scene, camera: &Camera) -> Result<Projected, NoMemory>
    requires { AreInLimits scene.now.triangles }
    ensures tris { IfOk result (λ p. p.tris ≡ map (λ q. q.triangle) (prims camera.now scene.now.triangles)) }
    ensures paints { IfOk result (λ p. p.paints ≡ map (λ q. q.paint) (prims camera.now scene.now.triangles)) }
{
    let made = project_all(alloc, scene, camera)?;
    Ok(made.into_projected())
}
