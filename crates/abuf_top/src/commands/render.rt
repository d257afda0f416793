// The image, by how its fragments are stored: in one pool, in a pool for one band after another, or not at all.
ghost use Rattle.std.specs.Prelude.{◌≡◌};
ghost use Rattle.abuf_cli.specs.declared.job.Storage.TheVariants.{OneFrame, Bands, Layers};
ghost use Rattle.abuf_cli.specs.declared.job.What.TheVariants as what;
ghost use Rattle.abuf_top.specs.Drawn.{IsOutputOf};
ghost use Rattle.abuf_top.specs.Listed.{IsOutputBy};

use crate::drawing::Drawing;
use crate::image::{image_from, image_of};
use crate::outcome::Outcome;
use crate::stop::FullPool;
use crate::whole::{Whole, resolve_whole};
use abuf_band::{BandFault, render_bands};
use abuf_cli::Storage;
use abuf_fan::Gate;
use abuf_num::List;
use abuf_peel::peel;
use abuf_picture::Resolve;
use std::alloc::Global;
use std::thread::Threads;

/// All fragments in one frame.
fn render_whole<R: Threads + Sync, W: Resolve, G: Gate + Sync>(
    rt: &R,
    alloc: Global,
    drawing: &Drawing,
    way: &W,
    gate: &G,
) -> Outcome<List<u8>>
    requires what { drawing.now.what ≡ what.Render }
    requires storage { drawing.now.job.storage ≡ OneFrame }
    ensures { IsOutputBy (W.gives way.now) drawing.now result.result result.closed }
{
    match resolve_whole(rt, alloc, drawing, way, gate) {
        Ok(Whole { closed, resolved }) => {
            let bytes = image_from(alloc, drawing, resolved.sums.as_slice());
            Outcome::of(bytes, Some(closed))
        }
        Err(early) => early,
    }
}

/// One band after another.
fn render_banded<R: Threads + Sync>(
    rt: &R,
    alloc: Global,
    drawing: &Drawing,
    bands: u32,
) -> Outcome<List<u8>>
    requires what { drawing.now.what ≡ what.Render }
    requires storage { drawing.now.job.storage ≡ Bands bands }
    ensures { IsOutputOf drawing.now result.result result.closed }
{
    let job = drawing.job();
    let rendered = render_bands(
        rt,
        alloc,
        drawing.projected(),
        job.camera().width(),
        job.camera().height(),
        job.pattern(),
        job.background(),
        job.nodes(),
        job.threads(),
        bands,
    );
    match rendered {
        Ok(sums) => Outcome::of(image_of(alloc, drawing, sums.as_slice()), None),
        Err(
            BandFault::Full {
                band,
                fragments,
                nodes,
            },
        ) => Outcome::full(
            FullPool::Band {
                band,
                fragments,
                nodes,
            },
            None,
        ),
        Err(BandFault::Memory) => Outcome::out_of_memory(),
    }
}

/// Layer by layer.
fn render_peeled<R: Threads + Sync>(rt: &R, alloc: Global, drawing: &Drawing) -> Outcome<List<u8>>
    requires what { drawing.now.what ≡ what.Render }
    requires storage { drawing.now.job.storage ≡ Layers }
    ensures { IsOutputOf drawing.now result.result result.closed }
{
    let job = drawing.job();
    let peeled = peel(
        rt,
        alloc,
        drawing.projected(),
        job.camera().width(),
        job.camera().height(),
        job.pattern(),
        job.background(),
        job.threads(),
    );
    match peeled {
        Ok(sums) => Outcome::of(image_of(alloc, drawing, sums.as_slice()), None),
        Err(_) => Outcome::out_of_memory(),
    }
}

/// The image. Bands and layers are drawn over no gate of the caller's, and resolved by no way of the caller's.
pub(crate) fn render<R: Threads + Sync, W: Resolve, G: Gate + Sync>(
    rt: &R,
    alloc: Global,
    drawing: &Drawing,
    way: &W,
    gate: &G,
) -> Outcome<List<u8>>
    requires { drawing.now.what ≡ what.Render }
    ensures { IsOutputBy (W.gives way.now) drawing.now result.result result.closed }
{
    match drawing.job().storage() {
        Storage::OneFrame => render_whole(rt, alloc, drawing, way, gate),
        Storage::Bands(bands) => render_banded(rt, alloc, drawing, bands),
        Storage::Layers => render_peeled(rt, alloc, drawing),
    }
}
