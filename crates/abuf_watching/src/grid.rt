// The pixels that are watched.
ghost use Rattle.std.specs.Prelude.{◌≡◌, ◌*◌, ◌<◌, ◌≤◌, IfOk, length, All};
ghost use Rattle.abuf_raster.specs.Region.{IsRegion};
ghost use Rattle.abuf_num.specs.declared.limits.TheConstants.{MAX_SIDE};
ghost use Rattle.abuf_watching.specs.Grid.{grid, grid_place, middle};

use abuf_num::NoMemory;
use abuf_raster::{Region, region_law};
use std::alloc::Global;

/// The middle of part n of eight parts of a side.
fn middle(side: u32, n: u32) -> u32
    requires side { (1 ≤ side) × (side ≤ MAX_SIDE) }
    requires part { n < 8 }
    ensures value { result ≡ middle side n }
    ensures within { result < side }
{
    (2 * n + 1) * side / 16
}

/// The place in the region of the pixel with this number.
fn grid_place(region: Region, n: u32) -> u32
    requires { n < 64 }
    ensures value { result ≡ grid_place region n }
    ensures within { result < region.w * region.h }
{
    region_law(region);
    let row = middle(region.h(), n / 8);
    let column = middle(region.w(), n % 8);
    row * region.w() + column
}

/// The places of 64 pixels, eight by eight, each in the middle of its part of the region. In a small region some are the same. An
/// error means that memory ran out.
pub(crate) fn grid(alloc: Global, region: Region) -> Result<Vec<u32>, NoMemory>
    ensures value { IfOk result (λ places. places.items ≡ grid region) }
    ensures within { IfOk result (λ places. All (λ p. p < region.w * region.h) places.items) }
    ensures count { IfOk result (λ places. length places.items ≡ 64) }
{
    let mut places = Vec::with_capacity(alloc, 64)?;
    for n in 0..64 {
        places.push(grid_place(region, n))?;
    }
    Ok(places)
}
