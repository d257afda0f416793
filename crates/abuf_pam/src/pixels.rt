// The pixels of an image, from the sums of their samples.
ghost use Rattle.std.specs.Prelude.{◌≡◌, ◌≤◌, ◌*◌, ◌/◌, ◌%◌, ◌++◌, ◌∷◌, [], All, flat_map, length, slice_index_or, OnOk};
ghost use Rattle.abuf_pam.specs.Image.{narrow, wide, pixel_size, pixel};
ghost use Rattle.abuf_pam.specs.Sums.{HasSums};

use abuf_num::{NoMemory, PixelSum};

/// The value of a channel at MAXVAL 255. The usual numbers of samples divide by a constant, which takes a third of the time.
fn narrow(samples: u32, sum: u32) -> u8
    requires samples { (1 ≤ samples) × (samples ≤ 16) }
    requires sum { sum ≤ 65535 * samples }
    ensures { result ≡ narrow samples sum }
{
    let value = match samples {
        1 => (2 * sum + 257) / 514,
        4 => (2 * sum + 1028) / 2056,
        8 => (2 * sum + 2056) / 4112,
        _ => (2 * sum + 257 * samples) / (514 * samples),
    };
    value as u8
}

/// The value of a channel at MAXVAL 65535.
fn wide(samples: u32, sum: u32) -> u16
    requires samples { (1 ≤ samples) × (samples ≤ 16) }
    requires sum { sum ≤ 65535 * samples }
    ensures { result ≡ wide samples sum }
{
    ((2 * sum + samples) / (2 * samples)) as u16
}

/// The bytes of a pixel: three values of one byte at `maxval` 255, of two bytes at 65535.
pub fn pixel_size(maxval: u32) -> usize
    ensures { result ≡ pixel_size maxval }
{
    if maxval == 255 { 3 } else { 6 }
}

/// Puts a pixel of three bytes last, by one call, which asks for room once.
fn push_narrow(out: &mut Vec<u8>, samples: u32, sum: &PixelSum) -> Result<(), NoMemory>
    requires samples { (1 ≤ samples) × (samples ≤ 16) }
    requires sums { HasSums samples sum.now }
    ensures { OnOk result (out.new.items ≡ out.old.items ++ pixel 255 samples sum.now) }
{
    out.extend_from_slice(&[
        narrow(samples, sum.channels[0]),
        narrow(samples, sum.channels[1]),
        narrow(samples, sum.channels[2]),
    ])?;
    Ok(())
}

/// Puts a value last, the high byte first.
fn push_word(out: &mut Vec<u8>, value: u16) -> Result<(), NoMemory>
    ensures { OnOk result (out.new.items ≡ out.old.items ++ value / 256 ∷ value % 256 ∷ []) }
{
    out.push((value / 256) as u8)?;
    out.push((value % 256) as u8)?;
    Ok(())
}

/// Puts a pixel of six bytes last.
fn push_wide(out: &mut Vec<u8>, samples: u32, sum: &PixelSum) -> Result<(), NoMemory>
    requires samples { (1 ≤ samples) × (samples ≤ 16) }
    requires sums { HasSums samples sum.now }
    ensures { OnOk result (out.new.items ≡ out.old.items ++ pixel 65535 samples sum.now) }
{
    push_word(out, wide(samples, sum.channels[0]))?;
    push_word(out, wide(samples, sum.channels[1]))?;
    push_word(out, wide(samples, sum.channels[2]))?;
    Ok(())
}

/// Puts four pixels of three bytes last, by one call.
fn push_four(
    out: &mut Vec<u8>,
    samples: u32,
    a: &PixelSum,
    b: &PixelSum,
    c: &PixelSum,
    d: &PixelSum,
) -> Result<(), NoMemory>
    requires samples { (1 ≤ samples) × (samples ≤ 16) }
    requires sums { HasSums samples a.now × HasSums samples b.now × HasSums samples c.now × HasSums samples d.now }
    ensures { OnOk result (out.new.items ≡ out.old.items ++ flat_map (pixel 255 samples) (a.now ∷ b.now ∷ c.now ∷ d.now ∷ [])) }
{
    out.extend_from_slice(&[
        narrow(samples, a.channels[0]),
        narrow(samples, a.channels[1]),
        narrow(samples, a.channels[2]),
        narrow(samples, b.channels[0]),
        narrow(samples, b.channels[1]),
        narrow(samples, b.channels[2]),
        narrow(samples, c.channels[0]),
        narrow(samples, c.channels[1]),
        narrow(samples, c.channels[2]),
        narrow(samples, d.channels[0]),
        narrow(samples, d.channels[1]),
        narrow(samples, d.channels[2]),
    ])?;
    Ok(())
}

/// Puts all pixels last, at MAXVAL 255. Four at once take half the time.
pub(crate) fn push_all_narrow(
    out: &mut Vec<u8>,
    samples: u32,
    sums: &[PixelSum],
) -> Result<(), NoMemory>
    requires samples { (1 ≤ samples) × (samples ≤ 16) }
    requires sums { All (HasSums samples) sums.now }
    ensures { OnOk result (out.new.items ≡ out.old.items ++ flat_map (pixel 255 samples) sums.now) }
{
    let mut left = sums;
    while left.len() >= 4 {
        let (four, later) = left.split_at(4);
        push_four(out, samples, &four[0], &four[1], &four[2], &four[3])?;
        left = later;
    }
    for sum in left {
        push_narrow(out, samples, sum)?;
    }
    Ok(())
}

/// Puts all pixels last, at MAXVAL 65535.
pub(crate) fn push_all_wide(
    out: &mut Vec<u8>,
    samples: u32,
    sums: &[PixelSum],
) -> Result<(), NoMemory>
    requires samples { (1 ≤ samples) × (samples ≤ 16) }
    requires sums { All (HasSums samples) sums.now }
    ensures { OnOk result (out.new.items ≡ out.old.items ++ flat_map (pixel 65535 samples) sums.now) }
{
    for sum in sums {
        push_wide(out, samples, sum)?;
    }
    Ok(())
}
