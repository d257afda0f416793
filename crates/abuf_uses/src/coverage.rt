// Coverage of one triangle.
ghost use Rattle.std.specs.Prelude.{◌≡◌, IfOk};
ghost use Rattle.abuf_raster.specs.Samples.{offsets_of};
ghost use Rattle.abuf_uses.specs.Masks.{masks};

use abuf_num::NoMemory;
use abuf_raster::{Pattern, Region, ScreenTri, mask_at};
use std::alloc::Global;

/// The coverage masks of a triangle at the pixels of a region, row by row: bit k of a mask is set where the triangle covers
/// sample k of the pattern.
pub fn masks_of(
    alloc: Global,
    t: &ScreenTri,
    region: Region,
    pattern: Pattern,
) -> Result<Vec<u16>, NoMemory>
    ensures { IfOk result (λ table. table.items ≡ masks t.now (offsets_of pattern) region) }
{
    let mut table = Vec::with_capacity(alloc, region.pixels() as usize)?;
    for place in 0..region.pixels() {
        let x = region.x0() + place % region.w();
        let y = region.y0() + place / region.w();
        table.push(mask_at(t, x, y, pattern))?;
    }
    Ok(table)
}
