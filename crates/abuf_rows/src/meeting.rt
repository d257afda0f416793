// Workers of a command, which meet at a gate.
ghost use Rattle.std.specs.Prelude.{◌≤◌};
ghost use Rattle.abuf_num.specs.declared.limits.TheConstants.{MAX_THREADS};

use crate::command::words_of;
use abuf_fan::MeetingGate;
use abuf_io::{SteadyShelf, SteadySource, WriteSink};
use abuf_num::List;
use abuf_top::run_with;
use std::alloc::Global;
use std::process::Abort;
use std::test::Fail;
use std::thread::Threads;

/// Parts of 64 triangles each, as many as there are workers: the two halves of a square about the middle of the image, 32 times a
/// part.
fn parts(alloc: Global, half: u32, workers: u32) -> Result<Vec<u8>, Fail> {
    let corners = format!(in alloc;
        "v -{half} {half} 0\nv {half} {half} 0\nv {half} -{half} 0\nv -{half} -{half} 0\n"
    )?;
    let mut scene = corners.as_bytes().to_vec(alloc)?;
    for _ in 0..workers {
        for _ in 0..32 {
            scene.extend_from_slice(b"f 1 2 4\nf 2 3 4\n")?;
        }
    }
    Ok(scene)
}

/// Workers draw a part each, at once and into one frame: each calls the gate twice with its own number, and between its calls its
/// credit falls by the fragments of a part, which covers so many pixels 32 times. None goes on before all others have drawn theirs.
fn all_meet<R: Threads + Sync + Abort>(
    rt: &R,
    alloc: Global,
    size: &str,
    half: u32,
    pixels: u32,
    workers: u32,
) -> Result<(), Fail>
    requires { workers ≤ MAX_THREADS }
{
    let line = format!(in alloc; "render --size {size} --threads {workers}")?;
    let words = words_of(alloc, &line)?;
    let mut source = SteadySource::new(List::from_vec(parts(alloc, half, workers)?));
    let mut shelf = SteadyShelf::new(List::new(alloc));
    let mut out = WriteSink::new(Vec::new(alloc));
    let mut err = WriteSink::new(Vec::new(alloc));
    let part = 32 * u64::from(pixels);
    let gate = MeetingGate::new(alloc, workers, part)?;
    let ran = run_with(
        rt,
        alloc,
        words.as_slice(),
        &mut source,
        &mut shelf,
        &mut out,
        &mut err,
        &gate,
    );
    assert!(rt; ran.status == 0, "{line}: status {}", ran.status);
    assert!(rt; gate.have_met(), "{line}: not met");
    match ran.closed {
        Some(closed) => {
            let whole = closed.fragments() == part * u64::from(workers) && closed.full().is_none();
            assert!(rt; whole, "{line}: {} fragments", closed.fragments());
        }
        None => panic!(rt; "no frame"),
    }
    Ok(())
}

/// Of 128 triangles two threads draw 64 each.
#[test]
fn two_workers_meet(rt: HostRuntime) -> Result<(), Fail> {
    all_meet(&rt, rt.alloc(), "4x4", 4, 16, 2)
}

/// More workers, and larger images, whose triangles are drawn in another order. In the last the square covers 120 by 120 pixels.
#[test]
fn all_workers_meet(rt: HostRuntime) -> Result<(), Fail> {
    let alloc = rt.alloc();
    for workers in [2, 3, 7] {
        all_meet(&rt, alloc, "64x64", 4, 4096, workers)?;
        all_meet(&rt, alloc, "640x480", 1, 14400, workers)?;
    }
    Ok(())
}
