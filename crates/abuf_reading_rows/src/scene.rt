// Triangles of scenes, and the demonstration scene: each call once with ample memory.
ghost use Rattle.std.specs.Prelude.{All, IfOk, length};
ghost use Rattle.abuf_obj.specs.Sound.{IsFace};

use abuf_mtl::{Materials, read_mtl};
use abuf_num::{List, NoMemory, Paint};
use abuf_obj::{Face, Obj, read_obj};
use abuf_scene::{Scene, SceneFault, assemble, make};
use std::alloc::Global;
use std::test::Fail;

const OBJ: &[u8] = b"v 0 0 0\nv 1 0 0\nv 1 1 0\nv 0 1 0\nf 4 3 2 1\nusemtl red\nf 1 2 3";

/// The scene of the file above, with these materials.
fn scene(alloc: Global, library: &[u8]) -> Option<Result<Scene, SceneFault>> {
    let mut materials = Materials::new(alloc);
    if library.len() > 1000 || read_mtl(alloc, library, &mut materials).is_err() {
        return None;
    }
    match read_obj(alloc, OBJ) {
        Ok(obj) => Some(assemble(alloc, &obj, &materials)),
        Err(_) => None,
    }
}

#[test]
fn faces_become_fans(rt: HostRuntime) {
    match scene(rt.alloc(), b"newmtl red\nKd 1 0 0\nd 0.5") {
        Some(Ok(scene)) => {
            let triangles = scene.triangles.as_slice();
            assert!(rt; triangles.len() == 3);
            assert!(rt; triangles[1].a == [0, 65536, 0]);
            assert!(rt; triangles[1].b == [65536, 0, 0]);
            assert!(rt; triangles[1].c == [0, 0, 0]);
            assert!(rt;
                triangles[1].paint
                    == Paint {
                        colour: [65535, 65535, 65535],
                        alpha: 65535
                    }
            );
            assert!(rt;
                triangles[2].paint
                    == Paint {
                        colour: [65535, 0, 0],
                        alpha: 32768
                    }
            );
        }
        _ => assert!(rt; false),
    }
}

#[test]
fn unknown_material_is_refused(rt: HostRuntime) {
    match scene(rt.alloc(), b"newmtl Red") {
        Some(Err(fault)) => assert!(rt; fault == SceneFault::UnknownMaterial { line: 7 }),
        _ => assert!(rt; false),
    }
}

/// A point further out than any that is read from a file.
const FAR: [i64; 3] = [1 << 40, -(1 << 40), 0];

/// A face with that point in each of its three corners, and without a name.
fn far_face(alloc: Global) -> Result<Obj, NoMemory>
    ensures { IfOk result (λ obj. All (IsFace (length obj.points) (length obj.names)) obj.faces) }
{
    let mut points = List::new(alloc);
    points.push(FAR)?;
    let mut corners = List::new(alloc);
    corners.push(0)?;
    corners.push(0)?;
    corners.push(0)?;
    let mut faces = List::new(alloc);
    faces.push(Face {
        line: 1,
        corners,
        name: None,
    })?;
    Ok(Obj {
        points,
        faces,
        names: List::new(alloc),
        libraries: List::new(alloc),
    })
}

#[test]
fn points_past_the_limits_of_a_camera_are_kept(rt: HostRuntime) -> Result<(), Fail> {
    let alloc = rt.alloc();
    let obj = far_face(alloc)?;
    match assemble(alloc, &obj, &Materials::new(alloc)) {
        Ok(scene) => {
            let triangles = scene.triangles.as_slice();
            assert!(rt; triangles.len() == 1);
            assert!(rt; triangles[0].c == FAR);
        }
        Err(_) => assert!(rt; false),
    }
    Ok(())
}

#[test]
fn demonstration_of_one_triangle(rt: HostRuntime) {
    match make(rt.alloc(), 1) {
        Ok(made) => {
            assert!(rt;
                made.obj.as_slice()
                    == b"mtllib demo.mtl\nv -68e-2 -34e-2 1e-2\nv 52e-2 -116e-2 -34e-2\nv 70e-2 14e-2 -124e-2\nusemtl m0\nf -3 -2 -1\n".as_slice()
            );
            assert!(rt; made.library.as_slice().len() == 214);
        }
        Err(_) => assert!(rt; false),
    }
}
