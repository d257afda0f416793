// What is written of a watched drawing.
ghost use Rattle.std.specs.Prelude.{◌≡◌, ◌+◌, ◌*◌, ◌++◌, ◌^◌, ◌<◌, ◌≤◌, ℕ, length, map, flat_map, sum_by, All, IfOk, OnOk};
ghost use Rattle.std.specs.List.{AllZip};
ghost use Rattle.std.specs.String.{string_bytes};
ghost use Rattle.abuf_num.specs.declared.limits.TheConstants.{MAX_PIXELS, MAX_PRIMITIVES};
ghost use Rattle.abuf_raster.specs.Hits.{all_fragments};
ghost use Rattle.abuf_raster.specs.Packing.{unpacked};
ghost use Rattle.abuf_raster.specs.Samples.{offsets_of};
ghost use Rattle.abuf_resolve.specs.Laws.{x_at, y_at};
ghost use Rattle.abuf_resolve.specs.Words.{AreWordsAt};
ghost use Rattle.abuf_picture.specs.Picture.{IsFrameOf, fragments};
ghost use Rattle.abuf_watching.specs.Report.{channel_sum, fragment_text, numbers_text, pixel_line, place_line, report_text};

use crate::watch::Watch;
use abuf_frame::Closed;
use abuf_num::{List, NoMemory, PixelSum};
use abuf_picture::resolve_drawn;
use abuf_raster::{Fragment, Pattern, Region, ScreenTri, region_law, unpack};
use abuf_resolve::laws::{order_law, pixel_law};
use std::alloc::{AllocError, Global};
use std::thread::Threads;

/// One fragment.
fn push_fragment(text: &mut String, fragment: Fragment) -> Result<(), AllocError>
    ensures { OnOk result (string_bytes text.new ≡ string_bytes text.old ++ fragment_text fragment) }
{
    let Fragment { prim, mask } = fragment;
    write!(text, " prim {prim} mask {mask}")
}

/// The fragments of some words.
fn push_fragments(text: &mut String, words: &[u64]) -> Result<(), AllocError>
    requires { All (λ word. word < 2 ^ 40) words.now }
    ensures { OnOk result (string_bytes text.new ≡ string_bytes text.old ++ flat_map fragment_text (map unpacked words.now)) }
{
    for word in words {
        push_fragment(text, unpack(*word))?;
    }
    Ok(())
}

/// The line of pixel (x, y), from the words of its fragments.
fn push_line(text: &mut String, x: u32, y: u32, words: &[u64]) -> Result<(), AllocError>
    requires { All (λ word. word < 2 ^ 40) words.now }
    ensures { OnOk result (string_bytes text.new ≡ string_bytes text.old ++ pixel_line x y (map unpacked words.now)) }
{
    write!(text, "pixel {x} {y}")?;
    push_fragments(text, words)?;
    writeln!(text, "")
}

/// The line of the pixel at this place, from the words of its fragments in any order.
fn push_place(
    text: &mut String,
    triangles: &[ScreenTri],
    pattern: Pattern,
    region: Region,
    place: u32,
    words: Vec<u64>,
) -> Result<(), AllocError>
    requires few { length triangles.now ≤ MAX_PRIMITIVES }
    requires place { place < region.w * region.h }
    requires words { AreWordsAt (all_fragments triangles.now 0 (offsets_of pattern) region) place words.items }
    ensures { OnOk result (string_bytes text.new ≡ string_bytes text.old ++ place_line (offsets_of pattern) triangles.now region place) }
{
    region_law(region);
    let mut sorted = words;
    sorted.sort_unstable();
    order_law(&sorted, &sorted);
    pixel_law(triangles, pattern, region, place, &sorted);
    let x = region.x0() + place % region.w();
    let y = region.y0() + place / region.w();
    push_line(text, x, y, &sorted)
}

/// The lines of all places.
fn push_places(
    alloc: Global,
    text: &mut String,
    watch: &Watch,
    words: &[List<u64>],
) -> Result<(), NoMemory>
    requires words { AllZip (AreWordsAt (fragments watch.now.primitives.triangles.now watch.now.target.pattern watch.now.target.region))
        watch.now.places.now words.now }
    requires count { length words.now ≡ length watch.now.places.now }
    ensures { OnOk result (string_bytes text.new ≡ string_bytes text.old
        ++ flat_map (place_line (offsets_of watch.now.target.pattern) watch.now.primitives.triangles.now watch.now.target.region) watch.now.places.now) }
{
    let places = watch.places;
    for i in 0..words.len() {
        let seen = Vec::from_slice(alloc, words[i].as_slice())?;
        push_place(
            text,
            watch.primitives.triangles,
            watch.target.pattern,
            watch.target.region,
            places[i],
            seen,
        )?;
    }
    Ok(())
}

/// The sums of one pixel, added up.
fn channel_sum(sum: &PixelSum) -> u64
    ensures value { result ≡ channel_sum sum.now }
    ensures small { result ≤ 12884901885 }
{
    let [red, green, blue] = sum.channels;
    u64::from(red) + u64::from(green) + u64::from(blue)
}

/// The sums of all pixels, added up.
fn sum_of(sums: &[PixelSum]) -> u64
    requires { length sums.now ≤ MAX_PIXELS }
    ensures { result ≡ sum_by channel_sum sums.now }
{
    let mut all = 0;
    for sum in sums {
        all += channel_sum(sum);
    }
    all
}

fn push_numbers(
    text: &mut String,
    fragments: u64,
    longest: usize,
    sum: u64,
) -> Result<(), AllocError>
    ensures { OnOk result (string_bytes text.new ≡ string_bytes text.old ++ numbers_text fragments longest sum) }
{
    write!(
        text,
        "fragments {fragments}\nlongest {longest}\nsum {sum}\n"
    )
}

/// The report of a watched drawing, from the words that were seen last and the closed frame. The frame must not be full. An error
/// means that memory ran out.
pub(crate) fn report<R: Threads + Sync>(
    rt: &R,
    alloc: Global,
    watch: &Watch,
    words: &[List<u64>],
    closed: &Closed,
) -> Result<String, NoMemory>
    requires frame { IsFrameOf watch.now.primitives.triangles.now watch.now.target.pattern watch.now.target.region watch.now.target.nodes closed.now }
    requires not_full { closed.now.fragments ≤ closed.now.nodes }
    requires words { AllZip (AreWordsAt (fragments watch.now.primitives.triangles.now watch.now.target.pattern watch.now.target.region))
        watch.now.places.now words.now }
    ensures { IfOk result (λ text. string_bytes text ≡
        report_text watch.now.primitives.triangles.now watch.now.primitives.paints.now watch.now.target.pattern
        watch.now.target.background watch.now.target.region watch.now.places.now) }
{
    region_law(watch.target.region);
    let resolved = resolve_drawn(rt, alloc, &watch.primitives, &watch.target, closed)?;
    let mut text = String::new(alloc);
    push_places(alloc, &mut text, watch, words)?;
    let sum = sum_of(resolved.sums.as_slice());
    push_numbers(&mut text, closed.fragments(), resolved.longest, sum)?;
    Ok(text)
}
