// Two triangles that share a diagonal cover each pixel of a rectangle once.
ghost use Rattle.std.specs.Prelude.{◌≤◌};
ghost use Rattle.abuf_num.specs.declared.limits.TheConstants.{MAX_NODES};

use abuf_fan::{OpenGate, likely_fragments};
use abuf_num::Paint;
use abuf_picture::{
    Compositing, Primitives, Target, draw, draw_and_look, draw_and_resolve, resolve_drawn,
};
use abuf_raster::{Pattern, Region, ScreenTri};
use std::test::Fail;

const WHITE: Paint = Paint {
    colour: [65535; 3],
    alpha: 65535,
};

#[test]
fn a_square_is_drawn_looked_at_and_resolved(rt: HostRuntime) -> Result<(), Fail> {
    let alloc = rt.alloc();
    let upper = ScreenTri::new([0, 1024, 0], [0, 0, 1024], [0; 3]).ok_or("upper")?;
    let lower = ScreenTri::new([1024, 1024, 0], [0, 1024, 1024], [0; 3]).ok_or("lower")?;
    let triangles = [upper, lower];
    let paints = [WHITE; 2];
    let primitives = Primitives {
        triangles: &triangles,
        paints: &paints,
    };
    let target = Target {
        region: Region::whole_image(4, 4),
        pattern: Pattern::One,
        background: [0; 3],
        nodes: 16,
        threads: 2,
    };
    let closed = draw(&rt, alloc, &primitives, &target, &OpenGate)?;
    assert_eq!(rt; closed.fragments(), 16);
    let sums = resolve_drawn(&rt, alloc, &primitives, &target, &closed)?;
    assert_eq!(rt; sums.longest, 1);
    for sum in sums.sums.as_slice() {
        assert_eq!(rt; sum.channels, [65535; 3]);
    }
    let rendering = draw_and_resolve(&rt, alloc, &primitives, &target, &Compositing, &OpenGate)?;
    let resolved = rendering.resolved.ok_or("full")?;
    assert_eq!(rt; rendering.closed.fragments(), 16);
    assert_eq!(rt; resolved.longest, 1);
    for sum in resolved.sums.as_slice() {
        assert_eq!(rt; sum.channels, [65535; 3]);
    }
    let pixel_view = draw_and_look(&rt, alloc, &primitives, &target, 0, &OpenGate)?;
    assert_eq!(rt; pixel_view.entries, 16);
    assert_eq!(rt; pixel_view.words.len(), 1);
    Ok(())
}

/// What is drawn into a region of 1024 by 512 pixels, on two threads.
fn large_target(nodes: u32) -> Target
    requires { (1 ≤ nodes) × (nodes ≤ MAX_NODES) }
{
    Target {
        region: Region::whole_image(1024, 512),
        pattern: Pattern::One,
        background: [0; 3],
        nodes,
        threads: 2,
    }
}

/// 524288 nodes are enough; one node less is too few.
#[test]
fn a_large_rectangle_is_drawn(rt: HostRuntime) -> Result<(), Fail> {
    let alloc = rt.alloc();
    let upper = ScreenTri::new([0, 262144, 0], [0, 0, 131072], [0; 3]).ok_or("upper")?;
    let lower = ScreenTri::new([262144, 262144, 0], [0, 131072, 131072], [0; 3]).ok_or("lower")?;
    let triangles = [upper, lower];
    let paints = [WHITE; 2];
    let primitives = Primitives {
        triangles: &triangles,
        paints: &paints,
    };
    let ample = draw(&rt, alloc, &primitives, &large_target(8388608), &OpenGate)?;
    let target = large_target(524288);
    let exact = draw(&rt, alloc, &primitives, &target, &OpenGate)?;
    let short = draw(&rt, alloc, &primitives, &large_target(524287), &OpenGate)?;
    assert!(rt; ample.full().is_none());
    assert!(rt; exact.full().is_none());
    assert!(rt; short.full().is_some());
    assert_eq!(rt; ample.fragments(), 524288);
    assert_eq!(rt; exact.fragments(), 524288);
    assert_eq!(rt; short.fragments(), 524288);
    assert_eq!(rt; exact.pixels(), 524288);
    let resolved = resolve_drawn(&rt, alloc, &primitives, &target, &exact)?;
    assert_eq!(rt; resolved.longest, 1);
    for sum in resolved.sums.as_slice() {
        assert_eq!(rt; sum.channels, [65535; 3]);
    }
    Ok(())
}

/// Of 65536 triangles every fifteenth, which are those that a guess looks at, lies outside of the square. So the first frame has one
/// node, and all are drawn once more. A pool of 16 nodes is full all the same, and tells how many fragments there are.
#[test]
fn a_wrong_guess_is_made_good(rt: HostRuntime) -> Result<(), Fail> {
    let alloc = rt.alloc();
    let inside = ScreenTri::new([0, 512, 0], [0, 0, 512], [0; 3]).ok_or("inside")?;
    let outside = ScreenTri::new([-512, -256, -512], [0, 0, 256], [0; 3]).ok_or("outside")?;
    let mut triangles = Vec::new(alloc);
    let mut paints = Vec::new(alloc);
    let mut count: u64 = 0;
    for i in 0..65536 {
        let is_guessed = i % 15 == 0;
        triangles.push(if is_guessed { outside } else { inside })?;
        paints.push(WHITE)?;
        count = count.saturating_add(u64::from(!is_guessed));
    }
    assert!(rt; triangles.len() == 65536 && paints.len() == 65536);
    let primitives = Primitives {
        triangles: &triangles,
        paints: &paints,
    };
    let region = Region::whole_image(4, 4);
    let likely = likely_fragments(&rt, &triangles, region, Pattern::One, 2, 8388608);
    assert_eq!(rt; likely, 0);
    for nodes in [8388608, 16] {
        let target = Target {
            region,
            pattern: Pattern::One,
            background: [0; 3],
            nodes,
            threads: 2,
        };
        let closed = draw(&rt, alloc, &primitives, &target, &OpenGate)?;
        assert!(rt; closed.fragments() == count && closed.full().is_some() == (nodes == 16));
    }
    Ok(())
}
