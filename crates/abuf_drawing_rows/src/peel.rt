// Layers: worked rows, and each call once with ample memory.
use abuf_num::{List, Paint};
use abuf_peel::{Layer, peel};
use abuf_raster::{Pattern, Region, ScreenTri};
use abuf_view::Projected;
use std::alloc::Global;
use std::test::Fail;

const RED: Paint = Paint {
    colour: [65535, 0, 0],
    alpha: 32768,
};

const GREEN: Paint = Paint {
    colour: [0, 65535, 0],
    alpha: 32768,
};

const WHITE: Paint = Paint {
    colour: [65535; 3],
    alpha: 65535,
};

/// Two films over one pixel, the red one farther; the nearer comes first in the list.
#[test]
fn the_third_step_finds_nothing(rt: HostRuntime) -> Result<(), Fail> {
    let alloc = rt.alloc();
    let near = ScreenTri::new([0, 1024, 0], [0, 0, 1024], [20, 20, 20]).ok_or("near")?;
    let far = ScreenTri::new([0, 1024, 0], [0, 0, 1024], [10, 10, 10]).ok_or("far")?;
    let tris = [near, far];
    let paints = [GREEN, RED];
    let mut layer = Layer::start(alloc, Region::whole_image(1, 1), Pattern::One, [0; 3])?;
    assert!(rt; layer.step(&tris, &paints));
    assert_eq!(rt; layer.sums(alloc)?.as_slice()[0].channels, [32768, 0, 0]);
    assert!(rt; layer.step(&tris, &paints));
    assert_eq!(rt;
        layer.sums(alloc)?.as_slice()[0].channels,
        [16384, 32768, 0]
    );
    assert!(rt; !layer.step(&tris, &paints));
    assert_eq!(rt;
        layer.sums(alloc)?.as_slice()[0].channels,
        [16384, 32768, 0]
    );
    Ok(())
}

/// The two halves of a square of 4 by 4 pixels.
#[test]
fn two_halves_make_a_square(rt: HostRuntime) -> Result<(), Fail> {
    let alloc = rt.alloc();
    let upper = ScreenTri::new([0, 1024, 0], [0, 0, 1024], [1, 2, 3]).ok_or("upper")?;
    let lower = ScreenTri::new([1024, 1024, 0], [0, 1024, 1024], [2, 2, 3]).ok_or("lower")?;
    let mut tris = List::new(alloc);
    tris.push(upper)?;
    tris.push(lower)?;
    let mut paints = List::new(alloc);
    paints.push(WHITE)?;
    paints.push(WHITE)?;
    let projected = Projected { tris, paints };
    let sums = peel(&rt, alloc, &projected, 4, 4, Pattern::One, [0; 3], 2)?;
    assert_eq!(rt; sums.as_slice().len(), 16);
    for sum in sums.as_slice() {
        assert_eq!(rt; sum.channels, [65535; 3]);
    }
    Ok(())
}

/// Twenty opaque films over one pixel, the nearest first.
fn twenty_films(alloc: Global) -> Result<Projected, Fail> {
    let mut tris = List::new(alloc);
    let mut paints = List::new(alloc);
    for n in 0..20u16 {
        let depth = 20 - u32::from(n);
        tris.push(ScreenTri::new([0, 1024, 0], [0, 0, 1024], [depth; 3]).ok_or("film")?)?;
        paints.push(Paint {
            colour: [1000 + n, 0, 0],
            alpha: 65535,
        })?;
    }
    Ok(Projected { tris, paints })
}

/// Twenty layers are more than the 16 that are found at once.
#[test]
fn the_nearest_of_twenty_films_shows(rt: HostRuntime) -> Result<(), Fail> {
    let alloc = rt.alloc();
    let projected = twenty_films(alloc)?;
    let sums = peel(&rt, alloc, &projected, 1, 1, Pattern::One, [0; 3], 1)?;
    assert_eq!(rt; sums.as_slice().len(), 1);
    assert_eq!(rt; sums.as_slice()[0].channels, [1000, 0, 0]);
    Ok(())
}
