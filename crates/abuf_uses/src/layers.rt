// The layers of an image.
ghost use Rattle.std.specs.Prelude.{◌≡◌, IfOk};
ghost use Rattle.abuf_raster.specs.Samples.{offsets_of};
ghost use Rattle.abuf_uses.specs.Lowest.{lowest_sums};

use abuf_num::{List, NoMemory, PixelSum};
use abuf_peel::Layer;
use abuf_peel::laws::layers_law;
use abuf_raster::{Pattern, Region};
use abuf_view::Projected;
use std::alloc::Global;

/// The sums of the pixels of a region where only the lowest `count` primitives of each sample are drawn, or all where there are
/// fewer.
pub fn lowest_layers(
    alloc: Global,
    projected: &Projected,
    region: Region,
    pattern: Pattern,
    background: [u16; 3],
    count: u32,
) -> Result<List<PixelSum>, NoMemory>
    ensures { IfOk result (λ sums. sums ≡ lowest_sums (offsets_of pattern) background projected.now.tris projected.now.paints count region) }
{
    let tris = projected.tris.as_slice();
    let paints = projected.paints.as_slice();
    let mut layer = Layer::start(alloc, region, pattern, background)?;
    for _step in 0..count {
        layer.step(tris, paints);
    }
    layers_law(&layer, tris, paints, background, count);
    let sums = layer.sums(alloc)?;
    Ok(sums)
}
