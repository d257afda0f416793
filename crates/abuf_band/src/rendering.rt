// An image rendered band by band.
ghost use Rattle.std.specs.Prelude.{◌≡◌, ◌≤◌};
ghost use Rattle.abuf_num.specs.declared.limits.TheConstants.{MAX_NODES, MAX_THREADS};
ghost use Rattle.abuf_raster.specs.Region.{IsImageSize};
ghost use Rattle.abuf_band.specs.Answers.{Banded, IsAnswer, IsBandAnswer};

use crate::bands::band_region;
use crate::fault::BandFault;
use abuf_fan::OpenGate;
use abuf_num::{List, PixelSum};
use abuf_picture::{Primitives, Target, draw, resolve_drawn};
use abuf_raster::Pattern;
use abuf_view::Projected;
use std::alloc::Global;
use std::thread::Threads;

/// The sums of the target's pixels, which are the band of this number, counted from 1.
fn band_sums<R: Threads + Sync>(
    rt: &R,
    alloc: Global,
    primitives: &Primitives,
    target: &Target,
    number: u32,
) -> Result<List<PixelSum>, BandFault>
    ensures { IsBandAnswer primitives.now.triangles.now primitives.now.paints.now target.now number result }
{
    let closed = draw(rt, alloc, primitives, target, &OpenGate)?;
    if let Some(full) = closed.full() {
        return Err(BandFault::Full {
            band: number,
            fragments: full.fragments,
            nodes: full.nodes,
        });
    }
    let resolved = resolve_drawn(rt, alloc, primitives, target, &closed)?;
    Ok(resolved.sums)
}

/// For each pixel of an image of this size, in order, the sums over its samples. The image is drawn in bands that share its
/// rows evenly, from 1 band to as many as there are rows; besides the sums, memory holds the frame of one band at a time. Each
/// band has nodes for 1 to `MAX_NODES` fragments, and 1 to `MAX_THREADS` threads draw and resolve it. Where the nodes are enough for each band,
/// the sums don't depend on the numbers of bands, nodes and threads; else the first band that is full is named.
pub fn render_bands<R: Threads + Sync>(
    rt: &R,
    alloc: Global,
    projected: &Projected,
    width: u32,
    height: u32,
    pattern: Pattern,
    background: [u16; 3],
    nodes: u32,
    threads: u32,
    bands: u32,
) -> Result<List<PixelSum>, BandFault>
    requires size { IsImageSize width height }
    requires nodes { (1 ≤ nodes) × (nodes ≤ MAX_NODES) }
    requires threads { (1 ≤ threads) × (threads ≤ MAX_THREADS) }
    requires bands { (1 ≤ bands) × (bands ≤ height) }
    ensures { let image : Banded = record { width = width; height = height; pattern = pattern; background = background; bands = bands; nodes = nodes } in
        IsAnswer projected.now.tris projected.now.paints image result }
{
    let primitives = Primitives::of(projected);
    let mut sums = Vec::with_capacity(alloc, (width * height) as usize)?;
    for band in 0..bands {
        let target = Target {
            region: band_region(width, height, bands, band),
            pattern,
            background,
            nodes,
            threads,
        };
        let more = band_sums(rt, alloc, &primitives, &target, band + 1)?;
        sums.extend_from_slice(more.as_slice())?;
    }
    Ok(List::from_vec(sums))
}
