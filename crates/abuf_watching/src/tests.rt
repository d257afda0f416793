// A square that two triangles cover, watched.
use crate::grid::grid;
use crate::report::report;
use crate::watch::Watch;
use crate::watching::watch;
use abuf_num::Paint;
use abuf_picture::{Primitives, Target};
use abuf_raster::{Pattern, Region, ScreenTri};
use std::test::Fail;

const WHITE: Paint = Paint {
    colour: [65535; 3],
    alpha: 65535,
};

// The upper and the lower half of 4 by 4 pixels, and the upper half once more: 6 pixels lie above the diagonal, and the 10 others
// belong to the lower half.
#[test]
fn a_square_is_watched(rt: HostRuntime) -> Result<(), Fail> {
    let alloc = rt.alloc();
    let upper = ScreenTri::new([0, 1024, 0], [0, 0, 1024], [0; 3]).ok_or("upper")?;
    let lower = ScreenTri::new([1024, 1024, 0], [0, 1024, 1024], [0; 3]).ok_or("lower")?;
    let triangles = [upper, lower, upper];
    let paints = [WHITE; 3];
    let watched_drawing = Watch {
        primitives: Primitives {
            triangles: &triangles,
            paints: &paints,
        },
        target: Target {
            region: Region::whole_image(4, 4),
            pattern: Pattern::One,
            background: [0; 3],
            nodes: 22,
            threads: 3,
        },
        places: &[0, 15],
    };
    let watched = watch(&rt, alloc, &watched_drawing)?;
    assert!(rt; watched.closed.full().is_none());
    assert_eq!(rt; watched.closed.fragments(), 22);
    assert!(rt; watched.looks.last <= 22);
    assert_eq!(rt; watched.words.as_slice().len(), 2);
    if watched.closed.full().is_none() {
        let text = report(
            &rt,
            alloc,
            &watched_drawing,
            watched.words.as_slice(),
            &watched.closed,
        )?;
        assert!(rt;
            text.as_str()
                == "pixel 0 0 prim 0 mask 1 prim 2 mask 1\npixel 3 3 prim 1 mask 1\nfragments 22\nlongest 2\nsum 3145680\n"
        );
    }
    Ok(())
}

#[test]
fn a_grid_has_64_places(rt: HostRuntime) -> Result<(), Fail> {
    let places = grid(rt.alloc(), Region::whole_image(16, 32))?;
    assert_eq!(rt; places.len(), 64);
    assert_eq!(rt; places[0], 2 * 16 + 1);
    assert_eq!(rt; places[63], 30 * 16 + 15);
    Ok(())
}
