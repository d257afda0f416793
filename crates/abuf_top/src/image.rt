// The image, from the sums of its pixels.
ghost use Rattle.std.specs.Prelude.{◌≡◌, ◌*◌, length, IfOk};
ghost use Rattle.std.specs.List.{All};
ghost use Rattle.abuf_raster.specs.Samples.{offsets_of};
ghost use Rattle.abuf_resolve.specs.Sums.{IsSmall};
ghost use Rattle.abuf_top.specs.Image.{image, size_of, sums};
ghost use Rattle.abuf_top.specs.Listed.{image_from};

use crate::drawing::Drawing;
use abuf_num::{List, NoMemory, PixelSum};
use abuf_pam::image_bytes;
use std::alloc::Global;

/// The bytes of an image of these sums over the samples of each pixel. An error means that memory ran out.
#[tactic(auto, unfolding(crate::specs::Listed::image_from))]
pub(crate) fn image_from(
    alloc: Global,
    drawing: &Drawing,
    pixels: &[PixelSum],
) -> Result<List<u8>, NoMemory>
    requires pixels { length pixels.now ≡ drawing.now.job.camera.width * drawing.now.job.camera.height }
    requires small { All (IsSmall (length (offsets_of drawing.now.job.pattern))) pixels.now }
    ensures bytes { IfOk result (λ bytes. bytes ≡ image_from drawing.now pixels.now) }
    ensures size { IfOk result (λ bytes. length bytes ≡ size_of drawing.now.job) }
{
    let job = drawing.job();
    image_bytes(
        alloc,
        job.camera().width(),
        job.camera().height(),
        job.maxval(),
        job.pattern().size(),
        pixels,
    )
}

/// The bytes of the image, from the sums of the definition. An error means that memory ran out.
#[tactic(auto, unfolding(crate::specs::Image::image, crate::specs::Listed::image_from))]
pub(crate) fn image_of(
    alloc: Global,
    drawing: &Drawing,
    pixels: &[PixelSum],
) -> Result<List<u8>, NoMemory>
    requires sums { pixels.now ≡ sums drawing.now }
    requires small { All (IsSmall (length (offsets_of drawing.now.job.pattern))) pixels.now }
    ensures { IfOk result (λ bytes. bytes ≡ image drawing.now) }
{
    image_from(alloc, drawing, pixels)
}
