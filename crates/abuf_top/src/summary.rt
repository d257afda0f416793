// The summary of a drawing, for the demonstration scene.
ghost use Rattle.std.specs.Prelude.{◌≡◌, ◌≤◌, ◌+◌, ◌*◌, ◌-◌, ◌++◌, length, drop, sum, IfOk};
ghost use Rattle.std.specs.String.{string_bytes};
ghost use Rattle.abuf_top.specs.Image.{total, size_of};
ghost use Rattle.abuf_top.specs.Listed.{subject_of, summary_from};
ghost use Rattle.abuf_top.specs.Summary.{summary_text, values_in};
ghost use Rattle.abuf_picture.specs.Resolving.{FitsIn};

use crate::drawing::Drawing;
use crate::image::image_from;
use abuf_num::{List, NoMemory};
use abuf_pam::pixel_size;
use abuf_resolve::Resolved;
use std::alloc::{AllocError, Global};

/// The sum of so many bytes.
fn sum_of(bytes: &[u8]) -> u64
    requires { length bytes.now ≤ 25165824 }
    ensures { result ≡ sum bytes.now }
{
    let mut sum = 0;
    for byte in bytes {
        sum += u64::from(*byte);
    }
    sum
}

/// The sum of the bytes of an image after its header.
fn sum_of_values(drawing: &Drawing, bytes: &[u8]) -> u64
    requires { length bytes.now ≡ size_of drawing.now.job }
    ensures { result ≡ sum (values_in drawing.now.job bytes.now) }
{
    let region = drawing.region();
    let size = pixel_size(drawing.job().maxval()) * region.pixels() as usize;
    sum_of(&bytes[bytes.len() - size..])
}

fn text_of(
    alloc: Global,
    triangles: usize,
    fragments: u64,
    longest: usize,
    sum: u64,
) -> Result<String, AllocError>
    ensures { IfOk result (λ text. string_bytes text ≡ summary_text triangles fragments longest sum) }
{
    format!(in alloc;
        "triangles {triangles}\nfragments {fragments}\nlongest {longest}\nsum {sum}\n"
    )
}

/// The summary of a drawing that has so many fragments, from what was resolved of its frame. An error means that memory ran out.
#[tactic(auto, unfolding(crate::specs::Listed::summary_from))]
pub(crate) fn summary_from(
    alloc: Global,
    drawing: &Drawing,
    fragments: u64,
    resolved: &Resolved,
) -> Result<List<u8>, NoMemory>
    requires fragments { fragments ≡ total drawing.now }
    requires fits { FitsIn (subject_of drawing.now) resolved.now }
    ensures { IfOk result (λ bytes. bytes ≡ summary_from drawing.now resolved.now) }
{
    let bytes = image_from(alloc, drawing, resolved.sums.as_slice())?;
    let sum = sum_of_values(drawing, bytes.as_slice());
    let text = text_of(
        alloc,
        drawing.projected().tris.as_slice().len(),
        fragments,
        resolved.longest,
        sum,
    )?;
    Ok(List::from_vec(text.into_bytes()))
}
