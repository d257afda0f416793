// Drawing on threads.
ghost use Rattle.std.specs.Prelude.{◌≡◌, ◌≤◌};
ghost use Rattle.abuf_num.specs.declared.limits.TheConstants.{MAX_THREADS};
ghost use Rattle.abuf_raster.specs.Region.{IsImageSize, whole_image};

use abuf_fan::{Gate, MeetingGate, draw_all, likely_fragments, max_fragments};
use abuf_frame::{Frame, Pass};
use abuf_raster::{Pattern, Region, ScreenTri};
use std::alloc::Global;
use std::process::Abort;
use std::sync::atomic::{AtomicU64, Ordering};
use std::test::Fail;
use std::thread::Threads;

fn square() -> Region
    ensures { result ≡ whole_image 4 4 }
{
    Region::whole_image(4, 4)
}

/// The two halves of an image, which meet along its diagonal.
fn halves_of(width: u32, height: u32) -> Option<[ScreenTri; 2]> {
    let right = 256 * i64::from(width);
    let bottom = 256 * i64::from(height);
    let upper = ScreenTri::new([0, right, 0], [0, 0, bottom], [0, 0, 0])?;
    let lower = ScreenTri::new([right, right, 0], [0, bottom, bottom], [0, 0, 0])?;
    Some([upper, lower])
}

/// The two halves of a square of 4 by 4 pixels.
fn halves() -> Option<[ScreenTri; 2]> {
    halves_of(4, 4)
}

/// Both halves of the square lie in its 16 pixels, and have 10 and 6 of them.
#[test]
fn no_fewer_than_the_fragments(rt: HostRuntime) -> Result<(), Fail> {
    let halves = halves().ok_or("no triangle")?;
    for threads in 1..4 {
        let most = max_fragments(&rt, &halves, square(), Pattern::One, threads, 1000);
        assert!(rt; 16 <= most && most <= 32, "by {threads} threads");
        let few = max_fragments(&rt, &halves, square(), Pattern::One, threads, 8);
        assert!(rt; 8 <= few && few <= most, "by {threads} threads");
    }
    assert!(rt; max_fragments(&rt, &[], square(), Pattern::Eight, 64, 1000) == 0);
    Ok(())
}

/// Two lists of so many triangles: the upper half of the square again and again; and that half once, then a triangle outside of the
/// square again and again.
fn equal_and_uneven(alloc: Global, count: u32) -> Result<(Vec<ScreenTri>, Vec<ScreenTri>), Fail> {
    let [upper, _] = halves().ok_or("no triangle")?;
    let outside = ScreenTri::new([-512, -256, -512], [0, 0, 256], [0; 3]).ok_or("outside")?;
    let mut equal = Vec::new(alloc);
    let mut uneven = Vec::new(alloc);
    for i in 0..count {
        equal.push(upper)?;
        uneven.push(if i == 0 { upper } else { outside })?;
    }
    Ok((equal, uneven))
}

/// Where some of 4096 equal triangles show that at most an eighth of the nodes would be spared, the bound is all nodes; otherwise it is
/// the sum. A single triangle that covers the square, among others outside of it, isn't taken for all.
#[test]
fn no_more_than_is_enough(rt: HostRuntime) -> Result<(), Fail> {
    let [upper, _] = halves().ok_or("no triangle")?;
    let (equal, uneven) = equal_and_uneven(rt.alloc(), 4096)?;
    assert!(rt; equal.len() == 4096 && uneven.len() == 4096);
    let one = max_fragments(&rt, &[upper], square(), Pattern::Four, 1, 1000);
    assert!(rt; 10 <= one && one <= 16);
    let sum = one.saturating_mul(4096);
    for threads in [1, 3] {
        for nodes in [sum.saturating_mul(2), sum.saturating_add(sum / 4)] {
            let most = max_fragments(&rt, &equal, square(), Pattern::Four, threads, nodes);
            assert!(rt; most == sum, "by {threads} threads");
        }
        let nodes = sum.saturating_add(sum / 8);
        let most = max_fragments(&rt, &equal, square(), Pattern::Four, threads, nodes);
        assert!(rt; most == nodes, "by {threads} threads");
        let few = max_fragments(
            &rt,
            &uneven,
            square(),
            Pattern::Four,
            threads,
            one.saturating_mul(2),
        );
        assert!(rt; few == one, "by {threads} threads");
    }
    Ok(())
}

/// Of 65536 equal triangles some stand for all, and the guess is their sum and a sixteenth more. Where one triangle covers the square and
/// the others lie outside of it, there is no guess, nor for one triangle fewer: they have the bound.
#[test]
fn many_triangles_are_guessed(rt: HostRuntime) -> Result<(), Fail> {
    let [upper, _] = halves().ok_or("no triangle")?;
    let (equal, uneven) = equal_and_uneven(rt.alloc(), 65536)?;
    assert!(rt; equal.len() == 65536 && uneven.len() == 65536);
    let one = max_fragments(&rt, &[upper], square(), Pattern::Four, 1, 1000);
    let sum = one.saturating_mul(65536);
    let guess = likely_fragments(&rt, &equal, square(), Pattern::Four, 2, 10000000);
    assert!(rt;
        sum <= guess && guess <= sum.saturating_add(sum / 15),
        "{guess} of {sum}"
    );
    let few = likely_fragments(&rt, &uneven, square(), Pattern::Four, 2, 10000000);
    assert!(rt; few == one);
    let bound = likely_fragments(&rt, &equal[1..], square(), Pattern::Four, 2, 10000000);
    assert!(rt; bound == one.saturating_mul(65535));
    Ok(())
}

/// The two halves, 64 times in turn, so that each of two parts has 512 fragments.
#[test]
fn two_workers_meet(rt: HostRuntime) -> Result<(), Fail> {
    let alloc = rt.alloc();
    let halves = halves().ok_or("no triangle")?;
    let mut tris = Vec::new(alloc);
    for _ in 0..64 {
        tris.extend_from_slice(&halves)?;
    }
    let count = tris.len();
    assert!(rt; count == 128);
    let gate = MeetingGate::new(alloc, 2, 512)?;
    let (frame, mut pass) = Frame::start(alloc, 16, 1024)?;
    let drawn = draw_all(
        &rt,
        alloc,
        &frame,
        &mut pass,
        &tris,
        square(),
        Pattern::One,
        2,
        &gate,
    )
    .is_ok();
    let closed = frame.close(pass);
    assert!(rt; drawn && gate.have_met());
    assert!(rt; closed.fragments() == 1024 && closed.full().is_none());
    Ok(())
}

/// Workers draw the two halves of an image, so often in turn that each has a part that covers every pixel of it 32 times. The frame
/// has fewer nodes than that, which changes no count.
fn all_meet<R: Threads + Sync + Abort>(
    rt: &R,
    alloc: Global,
    width: u32,
    height: u32,
    workers: u32,
) -> Result<(), Fail>
    requires size { IsImageSize width height }
    requires workers { (1 ≤ workers) × (workers ≤ MAX_THREADS) }
{
    let region = Region::whole_image(width, height);
    let halves = halves_of(width, height).ok_or("no triangle")?;
    let mut tris = Vec::new(alloc);
    for _ in 0..32 * workers {
        tris.extend_from_slice(&halves)?;
    }
    let count = tris.len();
    assert!(rt; count == 64 * workers as usize);
    let part = 32 * u64::from(region.pixels());
    let gate = MeetingGate::new(alloc, workers, part)?;
    let (frame, mut pass) = Frame::start(alloc, region.pixels(), 1024)?;
    let drawn = draw_all(
        rt,
        alloc,
        &frame,
        &mut pass,
        &tris,
        region,
        Pattern::One,
        workers,
        &gate,
    )
    .is_ok();
    let closed = frame.close(pass);
    assert!(rt;
        drawn && gate.have_met(),
        "{workers} workers, {width} by {height} pixels"
    );
    assert!(rt; closed.fragments() == part * u64::from(workers) && closed.full().is_some());
    Ok(())
}

/// Each worker sees that all others have drawn their parts before it goes on, in small images and in large ones, whose triangles
/// are drawn in another order.
#[test]
fn all_workers_meet(rt: HostRuntime) -> Result<(), Fail> {
    let alloc = rt.alloc();
    for workers in [2, 3, 7] {
        all_meet(&rt, alloc, 64, 64, workers)?;
        all_meet(&rt, alloc, 640, 480, workers)?;
    }
    Ok(())
}

/// One worker that draws one fragment has met itself, until it calls again. It hasn't where two were expected of it, or no worker.
#[test]
fn a_gate_tells_other_calls(rt: HostRuntime) -> Result<(), Fail> {
    let alloc = rt.alloc();
    let right = MeetingGate::new(alloc, 1, 1)?;
    let longer = MeetingGate::new(alloc, 1, 2)?;
    let empty = MeetingGate::new(alloc, 0, 1)?;
    let (frame, mut pass) = Frame::start(alloc, 1, 1)?;
    for gate in [&right, &longer, &empty] {
        gate.pass_by(0, &pass);
    }
    pass.insert(&frame, 0, 7);
    for gate in [&right, &longer, &empty] {
        gate.pass_by(0, &pass);
    }
    let met = right.have_met();
    right.pass_by(0, &pass);
    frame.close(pass);
    assert!(rt; met && !right.have_met());
    assert!(rt; !longer.have_met() && !empty.have_met());
    Ok(())
}

/// Two workers that draw their parts one after the other haven't met: the first looks for the second in vain.
#[test]
fn workers_in_turn_have_not_met(rt: HostRuntime) -> Result<(), Fail> {
    let alloc = rt.alloc();
    let gate = MeetingGate::with_loads(alloc, 2, 1, 1000)?;
    let (frame, mut pass) = Frame::start(alloc, 1, 2)?;
    gate.pass_by(0, &pass);
    pass.insert(&frame, 0, 7);
    gate.pass_by(0, &pass);
    gate.pass_by(1, &pass);
    pass.insert(&frame, 0, 9);
    gate.pass_by(1, &pass);
    frame.close(pass);
    assert!(rt; !gate.have_met());
    Ok(())
}

/// A gate that counts its calls.
#[derive(Drop)]
struct Calls {
    count: AtomicU64,
}

impl Gate for Calls {
    fn pass_by(&self, _worker: u32, _pass: &Pass) {
        self.count.fetch_add(1, Ordering::SeqCst);
    }
}

/// By one worker to five, which have one part among them: each calls the gate twice, and each pixel has one fragment. Where memory runs
/// out, whichever allocation is refused, none calls it, and nothing was drawn.
#[test]
fn all_workers_pass_the_gate_or_with_refused_memory_none(rt: HostRuntime) -> Result<(), Fail> {
    let alloc = rt.alloc();
    let tris = halves().ok_or("no triangle")?;
    for threads in 1..6 {
        let gate = Calls {
            count: AtomicU64::new(0),
        };
        let (frame, mut pass) = Frame::start(alloc, 16, 16)?;
        let drawn = draw_all(
            &rt,
            alloc,
            &frame,
            &mut pass,
            &tris,
            square(),
            Pattern::One,
            threads,
            &gate,
        )
        .is_ok();
        let closed = frame.close(pass);
        let calls = gate.count.load(Ordering::SeqCst);
        let (wanted, count) = if drawn {
            (2 * u64::from(threads), 16)
        } else {
            (0, 0)
        };
        assert!(rt;
            calls == wanted && closed.fragments() == count,
            "by {threads} threads"
        );
        assert!(rt; closed.full().is_none());
    }
    Ok(())
}
