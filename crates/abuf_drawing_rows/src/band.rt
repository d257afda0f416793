// Bands: two triangles that share a diagonal, over 4 times 4 pixels. Together they cover each pixel once, so each row has 4 fragments;
// the lower one alone covers one pixel of the first row, and one more in each next row.
ghost use Rattle.std.specs.Prelude.{◌≤◌, length};
ghost use Rattle.abuf_num.specs.declared.limits.TheConstants.{MAX_PRIMITIVES};

use abuf_band::{BandFault, render_bands};
use abuf_num::{List, NoMemory, Paint};
use abuf_raster::{Pattern, ScreenTri};
use abuf_view::Projected;
use std::alloc::Global;
use std::test::Fail;

const WHITE: Paint = Paint {
    colour: [65535; 3],
    alpha: 65535,
};

/// The triangles in white.
fn in_white(alloc: Global, triangles: Vec<ScreenTri>) -> Result<Projected, NoMemory>
    requires { length triangles.items ≤ MAX_PRIMITIVES }
{
    let paints = vec![in alloc; WHITE; triangles.len()]?;
    Ok(Projected {
        tris: List::from_vec(triangles),
        paints: List::from_vec(paints),
    })
}

#[test]
fn a_pool_for_one_row_draws_four_bands(rt: HostRuntime) -> Result<(), Fail> {
    let alloc = rt.alloc();
    let upper = ScreenTri::new([0, 1024, 0], [0, 0, 1024], [0; 3]).ok_or("upper")?;
    let lower = ScreenTri::new([1024, 1024, 0], [0, 1024, 1024], [0; 3]).ok_or("lower")?;
    let projected = in_white(alloc, Vec::from_array(alloc, [upper, lower])?)?;
    let enough = render_bands(&rt, alloc, &projected, 4, 4, Pattern::One, [0; 3], 4, 2, 4);
    let sums = enough.ok().ok_or("sums")?;
    assert_eq!(rt; sums.as_slice().len(), 16);
    for sum in sums.as_slice() {
        assert_eq!(rt; sum.channels, [65535; 3]);
    }
    let short = render_bands(&rt, alloc, &projected, 4, 4, Pattern::One, [0; 3], 3, 2, 4);
    let fault = short.err().ok_or("fault")?;
    let full = BandFault::Full {
        band: 1,
        fragments: 4,
        nodes: 3,
    };
    assert_eq!(rt; fault, full);
    Ok(())
}

#[test]
fn bands_that_have_nodes_are_passed(rt: HostRuntime) -> Result<(), Fail> {
    let alloc = rt.alloc();
    let lower = ScreenTri::new([1024, 1024, 0], [0, 1024, 1024], [0; 3]).ok_or("lower")?;
    let projected = in_white(alloc, Vec::from_array(alloc, [lower])?)?;
    let short = render_bands(&rt, alloc, &projected, 4, 4, Pattern::One, [0; 3], 3, 2, 4);
    let fault = short.err().ok_or("fault")?;
    let full = BandFault::Full {
        band: 4,
        fragments: 4,
        nodes: 3,
    };
    assert_eq!(rt; fault, full);
    Ok(())
}
