// Scenes as their files have them, before a camera.
ghost use Rattle.std.specs.Prelude.{◌≤◌};
ghost use Rattle.abuf_num.specs.declared.limits.TheConstants.{MAX_THREADS};
ghost use Rattle.abuf_obj.specs.Sound.{IsScene};

use crate::view::{WHITE, covering, four_by_four, front, pixels_at};
use abuf_mtl::{Materials, read_mtl};
use abuf_num::Paint;
use abuf_obj::{FlatObj, read_flat};
use abuf_scene::SceneFault;
use abuf_view::{Camera, FlatScene, Projected, Room};
use std::alloc::{AllocError, Global};
use std::test::Fail;
use std::thread::Threads;

/// The materials of a library of at most 1000 bytes.
fn materials_of(alloc: Global, library: &[u8]) -> Option<Materials> {
    let mut materials = Materials::new(alloc);
    if library.len() > 1000 || read_mtl(alloc, library, &mut materials).is_err() {
        return None;
    }
    Some(materials)
}

/// What a camera sees of what was read, by these materials and so many threads.
fn seen_flat<R: Threads + Sync>(
    rt: &R,
    alloc: Global,
    obj: FlatObj,
    materials: &Materials,
    camera: &Camera,
    threads: u32,
) -> Result<Projected, SceneFault>
    requires scene { IsScene obj }
    requires threads { (1 ≤ threads) × (threads ≤ MAX_THREADS) }
{
    let scene = FlatScene::new(alloc, obj, materials)?;
    let projected = scene.project(rt, Room::new(alloc, 0), camera, threads)?;
    Ok(projected)
}

/// Two halves of a square, of which the second has a material.
const SQUARE: &[u8] = b"v -4 4 0\nv 4 4 0\nv 4 -4 0\nv -4 -4 0\nf 1 2 4\nusemtl red\nf 2 3 4";

/// What a camera sees of the square, by the materials of this library.
fn seen_by_faces<R: Threads + Sync>(
    rt: &R,
    alloc: Global,
    camera: &Camera,
    library: &[u8],
) -> Option<Result<Projected, SceneFault>> {
    let materials = materials_of(alloc, library)?;
    match read_flat(alloc, SQUARE) {
        Ok(obj) => Some(seen_flat(rt, alloc, obj, &materials, camera, 2)),
        Err(_) => None,
    }
}

#[test]
fn faces_have_the_paint_of_their_material(rt: HostRuntime) -> Result<(), Fail> {
    let camera = front().ok_or("camera")?;
    match seen_by_faces(&rt, rt.alloc(), &camera, b"newmtl red\nKd 1 0 0\nd 0.5") {
        Some(Ok(projected)) => {
            let red = Paint {
                colour: [65535, 0, 0],
                alpha: 32768,
            };
            assert!(rt; projected.tris.as_slice().len() == 2);
            assert!(rt; projected.paints.as_slice() == [WHITE, red].as_slice());
            for x in 0..4 {
                for y in 0..4 {
                    assert!(rt; covering(projected.tris.as_slice(), x, y) == 1);
                }
            }
            assert!(rt; pixels_at(&projected, four_by_four(), 524287) == 6);
        }
        _ => assert!(rt; false),
    }
    Ok(())
}

#[test]
fn face_of_an_unknown_material_is_told(rt: HostRuntime) -> Result<(), Fail> {
    let camera = front().ok_or("camera")?;
    match seen_by_faces(&rt, rt.alloc(), &camera, b"newmtl blue") {
        Some(Err(fault)) => assert!(rt; fault == SceneFault::UnknownMaterial { line: 7 }),
        _ => assert!(rt; false),
    }
    Ok(())
}

/// Five materials, each for this many faces: so many that each of three workers has some. Those of the second have two triangles
/// each.
const FACES_EACH: u32 = 2500;

const CORNERS: &[u8] = b"v -4 4 0\nv 4 4 0\nv 4 -4 0\nv -4 -4 0\n";

const MATERIALS_AND_FACES: [(&[u8], &[u8]); 5] = [
    (b"usemtl a\n", b"f 1 2 4\n"),
    (b"usemtl b\n", b"f 2 3 4 1\n"),
    (b"usemtl c\n", b"f 2 3 4\n"),
    (b"usemtl d\n", b"f 1 2 3\n"),
    (b"usemtl e\n", b"f 1 3 4\n"),
];

fn many_faces(alloc: Global) -> Result<Vec<u8>, AllocError> {
    let mut text = Vec::from_slice(alloc, CORNERS)?;
    for (material, face) in MATERIALS_AND_FACES {
        text.extend_from_slice(material)?;
        for _ in 0..FACES_EACH {
            text.extend_from_slice(face)?;
        }
    }
    Ok(text)
}

/// What a camera sees of these faces on three threads, by the materials of this library.
fn seen_on_threads<R: Threads + Sync>(
    rt: &R,
    alloc: Global,
    camera: &Camera,
    library: &[u8],
) -> Option<Result<Projected, SceneFault>> {
    let materials = materials_of(alloc, library)?;
    let Ok(text) = many_faces(alloc) else {
        return None;
    };
    if text.len() > 1000000 {
        return None;
    }
    match read_flat(alloc, text.as_slice()) {
        Ok(obj) => Some(seen_flat(rt, alloc, obj, &materials, camera, 3)),
        Err(_) => None,
    }
}

fn grey(level: u16) -> Paint {
    Paint {
        colour: [level; 3],
        alpha: 65535,
    }
}

const GREYS: &[u8] =
    b"newmtl a\nKd 0 0 0\nnewmtl b\nKd 0.2 0.2 0.2\nnewmtl c\nKd 0.4 0.4 0.4\nnewmtl d\nKd 0.6 0.6 0.6\nnewmtl e\nKd 0.8 0.8 0.8";

/// The faces cover the square 7500 times.
#[test]
fn three_workers_give_all_primitives_in_order(rt: HostRuntime) -> Result<(), Fail> {
    let camera = front().ok_or("camera")?;
    match seen_on_threads(&rt, rt.alloc(), &camera, GREYS) {
        Some(Ok(projected)) => {
            let paints = projected.paints.as_slice();
            assert_eq!(rt; paints.len(), 15000);
            for (first, end, level) in [
                (0, 2500, 0),
                (2500, 7500, 13107),
                (7500, 10000, 26214),
                (10000, 12500, 39321),
                (12500, 15000, 52428),
            ] {
                for paint in paints.get(first..end).ok_or("paints")? {
                    assert!(rt; *paint == grey(level));
                }
            }
            for x in 0..4 {
                for y in 0..4 {
                    assert!(rt; covering(projected.tris.as_slice(), x, y) == 7500);
                }
            }
        }
        _ => assert!(rt; false),
    }
    Ok(())
}

#[test]
fn first_of_several_unknown_materials_is_told(rt: HostRuntime) -> Result<(), Fail> {
    let camera = front().ok_or("camera")?;
    match seen_on_threads(&rt, rt.alloc(), &camera, b"newmtl a\nnewmtl b\nnewmtl c") {
        Some(Err(fault)) => assert!(rt; fault == SceneFault::UnknownMaterial { line: 7509 }),
        _ => assert!(rt; false),
    }
    Ok(())
}

/// How many triangles a scene has, or why there is none.
fn count_of(alloc: Global, text: &[u8], library: &[u8]) -> Option<Result<usize, SceneFault>> {
    let materials = materials_of(alloc, library)?;
    if text.len() > 1000000 {
        return None;
    }
    let Ok(obj) = read_flat(alloc, text) else {
        return None;
    };
    match FlatScene::new(alloc, obj, &materials) {
        Ok(scene) => Some(Ok(scene.triangle_count())),
        Err(fault) => Some(Err(fault)),
    }
}

/// Scenes, and how many triangles they have. A name that no face has needs no material.
const COUNTED: &[(&[u8], usize)] = &[
    (b"", 0),
    (b"v 0 0 0\nusemtl red\n", 0),
    (
        b"v 0 0 0\nv 1 0 0\nv 0 1 0\nusemtl blue\nusemtl red\nf 1 2 3\n",
        1,
    ),
    (b"v 0 0 0\nv 1 0 0\nv 0 1 0\nf 1 2 3 1 2\nusemtl blue\n", 3),
    (SQUARE, 2),
];

#[test]
fn triangles_are_counted(rt: HostRuntime) -> Result<(), Fail> {
    let alloc = rt.alloc();
    for (text, count) in COUNTED {
        assert_eq!(rt; count_of(alloc, text, b"newmtl red"), Some(Ok(*count)));
    }
    let text = many_faces(alloc)?;
    assert_eq!(rt; count_of(alloc, text.as_slice(), GREYS), Some(Ok(15000)));
    let unknown = SceneFault::UnknownMaterial { line: 7 };
    assert_eq!(rt; count_of(alloc, SQUARE, b""), Some(Err(unknown)));
    Ok(())
}
