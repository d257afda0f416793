// Paths, and sequences of a triangle that covers the upper left of an image, or seen from behind the upper right.
ghost use Rattle.std.specs.Prelude.{◌≡◌, ◌≤◌, length, true, IfOk};
ghost use Rattle.std.specs.List.{All};
ghost use Rattle.abuf_num.specs.declared.limits.TheConstants.{MAX_NODES, MAX_THREADS};
ghost use Rattle.abuf_io.specs.Plans.{IsPlan as IsSinkPlan};
ghost use Rattle.abuf_obj.specs.Sound.{IsScene};
ghost use Rattle.abuf_sequence.specs.Sequences.{IsPlan};
ghost use Rattle.abuf_view.specs.Primitives.{AreInLimits};

use abuf_io::{MemSink, Step};
use abuf_mtl::{Materials, read_mtl};
use abuf_num::{List, NoMemory, Paint};
use abuf_obj::{Obj, read_flat, read_obj};
use abuf_raster::Pattern;
use abuf_scene::{Scene, SceneFault, Triangle, assemble};
use abuf_sequence::{
    PathFault, PathWhy, Plan, SequenceFault, Shot, read_path, sequence, sequence_flat,
};
use abuf_view::FlatScene;
use std::alloc::Global;
use std::test::Fail;
use std::thread::Threads;

/// The shots of a short path.
fn shots_of(alloc: Global, text: &[u8]) -> Result<List<Shot>, PathFault> {
    if text.len() > 100000 {
        return Err(PathFault::Memory);
    }
    read_path(alloc, text)
}

const READ: &[(&[u8], usize)] = &[
    (b"", 0),
    (b"\n \t\r\n# 1 0 0 0 0 0 -4\n", 0),
    (b"1 0 0 0 0 0 -4", 1),
    (b"-0 0001 -1024 1024 1e-3 -.5 +4.\r\n", 1),
    (b"\t1 0 0 0 0 0 -4 # a comment\n\n2 0 0 0 0 0 -4 #", 2),
];

#[test]
fn paths_that_are_read(rt: HostRuntime) -> Result<(), Fail> {
    let alloc = rt.alloc();
    for (text, count) in READ {
        let shots = shots_of(alloc, text).ok().ok_or("a path")?;
        assert_eq!(rt; shots.as_slice().len(), *count);
    }
    let shots = shots_of(alloc, b"1 0 -2 3 0 0.5 -4").ok().ok_or("a shot")?;
    let shot = Shot {
        turn: [1, 0, -2, 3],
        shift: [0, 32768, -262144],
    };
    assert!(rt; shots.as_slice() == [shot].as_slice());
    Ok(())
}

const REFUSED: &[(&[u8], u32, PathWhy)] = &[
    (b"0 0 0 0 0 0 -4", 1, PathWhy::BadTurn),
    (b"1 0 0 0 0 0", 1, PathWhy::WrongCount),
    (b"1 0 0 0 0 0 #-4", 1, PathWhy::WrongCount),
    (b"1 0 0 0 0 0 -4 0", 1, PathWhy::WrongCount),
    (b"1 0 0 0 0 0 x", 1, PathWhy::BadNumber),
    (b"1 0 0 0 0 0 32768", 1, PathWhy::BadNumber),
    (b"x 0 0 0 0 0 x", 1, PathWhy::BadTurn),
    (b"+1 0 0 0 0 0 -4", 1, PathWhy::BadTurn),
    (b"1025 0 0 0 0 0 -4", 1, PathWhy::BadTurn),
    (b"00001 0 0 0 0 0 -4", 1, PathWhy::BadTurn),
    (
        b"# 1\n\n1 0 0 0 0 0 -4\nx\n0 0 0 0 0 0 -4",
        4,
        PathWhy::WrongCount,
    ),
];

#[test]
fn lines_that_are_refused(rt: HostRuntime) {
    let alloc = rt.alloc();
    for (text, line, why) in REFUSED {
        let fault = PathFault::Line {
            line: *line,
            why: *why,
        };
        assert_eq!(rt; shots_of(alloc, text).err(), Some(fault));
    }
}

#[test]
fn the_image_past_the_last_is_refused(rt: HostRuntime) -> Result<(), Fail> {
    let alloc = rt.alloc();
    let mut text = Vec::new(alloc);
    for _line in 0..4096 {
        text.extend_from_slice(b"1 0 0 0 0 0 -4\n")?;
    }
    let shots = shots_of(alloc, &text).ok().ok_or("4096 images")?;
    assert_eq!(rt; shots.as_slice().len(), 4096);
    text.extend_from_slice(b"1 0 0 0 0 0 -4\n")?;
    let fault = PathFault::Line {
        line: 4097,
        why: PathWhy::TooMany,
    };
    assert_eq!(rt; shots_of(alloc, &text).err(), Some(fault));
    Ok(())
}

/// A white triangle over the upper left half of the screen.
fn scene(alloc: Global) -> Result<Scene, NoMemory>
    ensures { IfOk result (λ scene. AreInLimits scene.triangles) }
{
    let mut triangles = List::new(alloc);
    triangles.push(Triangle {
        a: [-262144, 262144, 0],
        b: [262144, 262144, 0],
        c: [-262144, -262144, 0],
        paint: Paint {
            colour: [65535; 3],
            alpha: 65535,
        },
    })?;
    Ok(Scene { triangles })
}

/// Images of 4 by 4 pixels, with a pool for so many fragments, by so many threads.
fn plan(nodes: u32, threads: u32) -> Plan
    requires nodes { (1 ≤ nodes) × (nodes ≤ MAX_NODES) }
    requires threads { (1 ≤ threads) × (threads ≤ MAX_THREADS) }
    ensures { IsPlan result }
{
    Plan {
        width: 4,
        height: 4,
        focal: 65536,
        near: 8192,
        pattern: Pattern::One,
        background: [0; 3],
        nodes,
        threads,
        maxval: 255,
    }
}

const HEADER: &[u8] = b"P7\nWIDTH 4\nHEIGHT 4\nDEPTH 3\nMAXVAL 255\nTUPLTYPE RGB\nENDHDR\n";

/// From the front and from behind: which pixels are white.
const FRONT: &[bool] = &[
    true, true, true, false, true, true, false, false, true, false, false, false, false, false,
    false, false,
];

const BACK: &[bool] = &[
    true, true, true, true, false, true, true, true, false, false, true, true, false, false, false,
    true,
];

fn push_image(bytes: &mut Vec<u8>, white: &[bool]) -> Result<(), NoMemory> {
    bytes.extend_from_slice(HEADER)?;
    for pixel in white {
        let value = if *pixel { 255 } else { 0 };
        bytes.extend_from_slice(&[value; 3])?;
    }
    Ok(())
}

/// Writes the image from the front, which has 6 fragments, and the one from behind, which has 10.
fn write_both<R: Threads + Sync>(
    rt: &R,
    alloc: Global,
    nodes: u32,
    threads: u32,
    out: &mut MemSink,
) -> Result<(), SequenceFault>
    requires nodes { (1 ≤ nodes) × (nodes ≤ MAX_NODES) }
    requires threads { (1 ≤ threads) × (threads ≤ MAX_THREADS) }
{
    let Ok(scene) = scene(alloc) else {
        return Err(SequenceFault::Memory { images: 0 });
    };
    let Ok(shots) = read_path(alloc, b"1 0 0 0 0 0 -4\n0 0 1 0 0 0 -4\n") else {
        return Err(SequenceFault::Memory { images: 0 });
    };
    sequence(
        rt,
        alloc,
        &scene,
        shots.as_slice(),
        &plan(nodes, threads),
        out,
    )
}

#[test]
fn both_images_are_written(rt: HostRuntime) -> Result<(), Fail> {
    let alloc = rt.alloc();
    let mut images = Vec::new(alloc);
    push_image(&mut images, FRONT)?;
    push_image(&mut images, BACK)?;
    assert_eq!(rt; images.len(), 214);
    // One after the other, both at once, and both at once with a thread to spare.
    for threads in 1..4 {
        let mut out = MemSink::new(alloc, 1000, List::new(alloc))?;
        assert_eq!(rt; write_both(&rt, alloc, 10, threads, &mut out), Ok(()));
        assert!(rt; out.taken() == images.as_slice());
    }
    Ok(())
}

/// From where the triangle lies behind the camera.
const NOTHING: &[bool] = &[false; 16];

/// Writes five images: of nothing, of nothing again, from the front, of nothing, and from behind.
fn write_five<R: Threads + Sync>(
    rt: &R,
    alloc: Global,
    threads: u32,
    out: &mut MemSink,
) -> Result<(), SequenceFault>
    requires { (1 ≤ threads) × (threads ≤ MAX_THREADS) }
{
    let Ok(scene) = scene(alloc) else {
        return Err(SequenceFault::Memory { images: 0 });
    };
    let Ok(shots) = read_path(
        alloc,
        b"1 0 0 0 0 0 4\n1 0 0 0 0 0 4\n1 0 0 0 0 0 -4\n1 0 0 0 0 0 4\n0 0 1 0 0 0 -4\n",
    ) else {
        return Err(SequenceFault::Memory { images: 0 });
    };
    sequence(
        rt,
        alloc,
        &scene,
        shots.as_slice(),
        &plan(1000, threads),
        out,
    )
}

/// By one thread, the frame of an image without fragments serves for the next, and has too few nodes for the third. The third's
/// frame serves for the fourth.
#[test]
fn later_images_need_more_nodes_and_fewer(rt: HostRuntime) -> Result<(), Fail> {
    let alloc = rt.alloc();
    let mut images = Vec::new(alloc);
    push_image(&mut images, NOTHING)?;
    push_image(&mut images, NOTHING)?;
    push_image(&mut images, FRONT)?;
    push_image(&mut images, NOTHING)?;
    push_image(&mut images, BACK)?;
    for threads in 1..4 {
        let mut out = MemSink::new(alloc, 1000, List::new(alloc))?;
        assert_eq!(rt; write_five(&rt, alloc, threads, &mut out), Ok(()));
        assert!(rt; out.taken() == images.as_slice());
    }
    Ok(())
}

#[test]
fn images_before_a_full_one_are_written(rt: HostRuntime) -> Result<(), Fail> {
    let alloc = rt.alloc();
    let mut images = Vec::new(alloc);
    push_image(&mut images, FRONT)?;
    let mut out = MemSink::new(alloc, 1000, List::new(alloc))?;
    let full = SequenceFault::Full {
        image: 2,
        fragments: 10,
        nodes: 6,
    };
    assert_eq!(rt; write_both(&rt, alloc, 6, 2, &mut out), Err(full));
    assert!(rt; out.taken() == images.as_slice());
    let mut out = MemSink::new(alloc, 1000, List::new(alloc))?;
    let full = SequenceFault::Full {
        image: 1,
        fragments: 6,
        nodes: 5,
    };
    assert_eq!(rt; write_both(&rt, alloc, 5, 2, &mut out), Err(full));
    assert!(rt; out.taken().is_empty());
    Ok(())
}

/// A sink that takes an image and five bytes, and fails then.
fn failing_plan(alloc: Global) -> Result<List<Step>, NoMemory>
    ensures { IfOk result IsSinkPlan }
{
    let mut steps = List::new(alloc);
    steps.push(Step::Take(107))?;
    steps.push(Step::Take(5))?;
    steps.push(Step::Fail)?;
    Ok(steps)
}

#[test]
fn a_sink_that_fails_has_a_prefix(rt: HostRuntime) -> Result<(), Fail> {
    let alloc = rt.alloc();
    let mut out = MemSink::new(alloc, 1000, failing_plan(alloc)?)?;
    assert_eq!(rt;
        write_both(&rt, alloc, 10, 2, &mut out),
        Err(SequenceFault::Write)
    );
    let mut images = Vec::new(alloc);
    push_image(&mut images, FRONT)?;
    push_image(&mut images, BACK)?;
    assert!(rt; Some(out.taken()) == images.get(..112));
    Ok(())
}

#[test]
fn without_shots_nothing_is_written(rt: HostRuntime) -> Result<(), Fail> {
    let alloc = rt.alloc();
    let scene = scene(alloc)?;
    let mut out = MemSink::new(alloc, 1000, List::new(alloc))?;
    let done = sequence(&rt, alloc, &scene, &[], &plan(1, 2), &mut out);
    assert_eq!(rt; done, Ok(()));
    assert!(rt; out.taken().is_empty());
    Ok(())
}

/// Faces that share points, with two materials and none.
const FACES: &[u8] =
    b"v -4 4 0\nv 4 4 0\nv 4 -4 0\nv -4 -4 1\nv 0 0 6\nf 1 2 4\nusemtl red\nf 2 3 4\nusemtl blue\nf 1 2 3 4 5\nf 5 3 1";

const LIBRARY: &[u8] = b"newmtl red\nKd 1 0 0\nd 0.5\nnewmtl blue\nKd 0 0.2 1\nd 0.25\n";

/// From in front, near by, from behind, from where nothing is seen, and askew.
const VIEWS: &[u8] =
    b"1 0 0 0 0 0 -4\n1 0 0 0 0 0 -5\n0 0 1 0 0 0 -4\n1 0 0 0 0 0 9\n3 1 0 -1 1 0 -7\n";

/// The materials of the library.
fn materials(alloc: Global) -> Option<Materials> {
    let mut materials = Materials::new(alloc);
    match read_mtl(alloc, LIBRARY, &mut materials) {
        Ok(()) => Some(materials),
        Err(_) => None,
    }
}

/// A list of a scene's triangles.
fn listed(alloc: Global, obj: &Obj, materials: &Materials) -> Result<Scene, SceneFault>
    requires { IsScene obj.now }
    ensures { IfOk result (λ scene. AreInLimits scene.triangles) }
{
    let scene = assemble(alloc, obj, materials)?;
    Ok(scene)
}

/// Writes the images of a list of the faces' triangles.
fn write_listed<R: Threads + Sync>(
    rt: &R,
    alloc: Global,
    threads: u32,
    out: &mut MemSink,
) -> Option<Result<(), SequenceFault>>
    requires { (1 ≤ threads) × (threads ≤ MAX_THREADS) }
{
    let plan = plan(1000, threads);
    let (Ok(obj), Ok(shots)) = (read_obj(alloc, FACES), read_path(alloc, VIEWS)) else {
        return None;
    };
    match listed(alloc, &obj, &materials(alloc)?) {
        Ok(scene) => Some(sequence(rt, alloc, &scene, shots.as_slice(), &plan, out)),
        Err(_) => None,
    }
}

/// Writes the images of the faces as their file has them.
fn write_flat<R: Threads + Sync>(
    rt: &R,
    alloc: Global,
    threads: u32,
    out: &mut MemSink,
) -> Option<Result<(), SequenceFault>>
    requires { (1 ≤ threads) × (threads ≤ MAX_THREADS) }
{
    let plan = plan(1000, threads);
    let (Ok(obj), Ok(shots)) = (read_flat(alloc, FACES), read_path(alloc, VIEWS)) else {
        return None;
    };
    match FlatScene::new(alloc, obj, &materials(alloc)?) {
        Ok(scene) => Some(sequence_flat(rt, alloc, &scene, shots.as_slice(), &plan, out)),
        Err(_) => None,
    }
}

#[test]
fn both_forms_of_a_scene_give_the_same_images(rt: HostRuntime) -> Result<(), Fail> {
    let alloc = rt.alloc();
    for threads in [1, 3] {
        let mut listed = MemSink::new(alloc, 1000, List::new(alloc))?;
        let mut flat = MemSink::new(alloc, 1000, List::new(alloc))?;
        assert_eq!(rt;
            write_listed(&rt, alloc, threads, &mut listed),
            Some(Ok(()))
        );
        assert_eq!(rt; write_flat(&rt, alloc, threads, &mut flat), Some(Ok(())));
        assert_eq!(rt; listed.taken().len(), 535);
        assert!(rt; flat.taken() == listed.taken());
    }
    Ok(())
}
