// The sums of the samples' colours.
ghost use Rattle.std.specs.Prelude.{◌≡◌, ◌+◌, ◌*◌, ◌<◌, ◌≤◌, [], length, map, slice_index_or, IfOk};
ghost use Rattle.std.specs.List.{range_with_len, All};
ghost use Rattle.abuf_resolve.specs.Sums.{IsSmall};
ghost use Rattle.abuf_peel.specs.Layers.{sum_of_place};

use abuf_num::{List, NoMemory, PixelSum};
use abuf_resolve::plus;
use std::alloc::Global;

/// The colour of one sample.
fn colour_at(colours: &[[u16; 3]], i: usize) -> [u16; 3]
    requires { i < length colours.now }
    ensures { result ≡ slice_index_or colours.now i [] }
{
    colours[i]
}

/// The sums of the colours of the pixel at one place.
fn sum_of_place(colours: &[[u16; 3]], size: u32, place: usize) -> PixelSum
    requires size { size ≤ 16 }
    requires within { place * size + size ≤ length colours.now }
    ensures value { result ≡ sum_of_place colours.now size place }
    ensures small { IsSmall size result }
{
    let first = place * size as usize;
    let mut sum = PixelSum { channels: [0; 3] };
    for k in 0..size {
        let more = plus(sum, colour_at(colours, first + k as usize));
        sum = more;
    }
    sum
}

/// The sums of the colours of so many pixels, each of so many samples.
pub(crate) fn layer_sums(
    alloc: Global,
    colours: &[[u16; 3]],
    size: u32,
    pixels: u32,
) -> Result<List<PixelSum>, NoMemory>
    requires size { size ≤ 16 }
    requires within { length colours.now ≡ pixels * size }
    ensures value { IfOk result (λ sums. sums ≡ map (sum_of_place colours.now size) (range_with_len 0 pixels)) }
    ensures small { IfOk result (λ sums. All (IsSmall size) sums) }
{
    let mut sums = Vec::with_capacity(alloc, pixels as usize)?;
    for place in 0..pixels {
        sums.push(sum_of_place(colours, size, place as usize))?;
    }
    Ok(List::from_vec(sums))
}
