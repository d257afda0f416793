// The whole image.
ghost use Rattle.std.specs.Prelude.{◌≡◌, ◌≤◌, ◌+◌, ◌*◌, ◌⊎◌, All, length, IfOk};
ghost use Rattle.abuf_pam.specs.Image.{header, pixel_size, image};
ghost use Rattle.abuf_pam.specs.Sums.{HasSums};

use crate::header::push_header;
use crate::pixels::{pixel_size, push_all_narrow, push_all_wide};
use abuf_num::{List, NoMemory, PixelSum};
use std::alloc::Global;

/// No header is longer.
const HEADER_ROOM: usize = 128;

/// The bytes of an RGB image in Netpbm PAM (tuple type RGB, depth 3), from the sum of the samples of each pixel.
///
/// `sums` has the pixels row by row from the top, each row from the left. At `maxval` 255 a value is one byte, at 65535
/// two, the high byte first. The values begin behind the header, `pixel_size` bytes a pixel. All memory is taken at once,
/// before the first byte is written.
#[tactic(auto, unfolding(crate::specs::Image::image))]
pub fn image_bytes(
    alloc: Global,
    width: u32,
    height: u32,
    maxval: u32,
    samples: u32,
    sums: &[PixelSum],
) -> Result<List<u8>, NoMemory>
    requires maxval { (maxval ≡ 255) ⊎ (maxval ≡ 65535) }
    requires samples { (1 ≤ samples) × (samples ≤ 16) }
    requires pixels { length sums.now ≡ width * height }
    requires sums { All (HasSums samples) sums.now }
    ensures bytes { IfOk result (λ bytes. bytes ≡ image width height maxval samples sums.now) }
    ensures size { IfOk result (λ bytes. length bytes ≡ length (header width height maxval) + pixel_size maxval * (width * height)) }
{
    let mut out = Vec::with_capacity(alloc, HEADER_ROOM + pixel_size(maxval) * sums.len())?;
    push_header(&mut out, width, height, maxval)?;
    if maxval == 255 {
        push_all_narrow(&mut out, samples, sums)?;
    } else {
        push_all_wide(&mut out, samples, sums)?;
    }
    Ok(List::from_vec(out))
}
