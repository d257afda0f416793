// The report of one pixel's fragments.
ghost use Rattle.std.specs.Prelude.{◌≡◌, ℕ, ◌≤◌, ◌<◌, ◌+◌, ◌*◌, ◌^◌, ◌++◌, length, map, flat_map, All, IfOk, OnOk};
ghost use Rattle.std.specs.String.{string_bytes};
ghost use Rattle.abuf_num.specs.declared.limits.TheConstants.{MAX_PRIMITIVES};
ghost use Rattle.abuf_raster.specs.Hits.{all_fragments};
ghost use Rattle.abuf_raster.specs.Packing.{unpacked};
ghost use Rattle.abuf_raster.specs.Samples.{offsets_of};
ghost use Rattle.abuf_resolve.specs.Laws.{TellLayers};
ghost use Rattle.abuf_resolve.specs.Words.{layer_of, AreWordsAt, IsFragmentAt};
ghost use Rattle.abuf_top.specs.Image.{fragments};
ghost use Rattle.abuf_top.specs.Report.{fragment_line, fragments_text, layer_text, sample_line, line_of, all_samples_text, pixel_report, report};

use crate::drawing::Drawing;
use abuf_num::{List, NoMemory};
use abuf_raster::{Fragment, Pattern, Region, ScreenTri, unpack};
use abuf_resolve::laws::{order_law, pixel_law};
use abuf_resolve::{Pixel, Planes, SampleWord};
use std::alloc::{AllocError, Global};

/// One fragment's line.
fn push_fragment(text: &mut String, fragment: Fragment) -> Result<(), AllocError>
    ensures { OnOk result (string_bytes text.new ≡ string_bytes text.old ++ fragment_line fragment) }
{
    let Fragment { prim, mask } = fragment;
    writeln!(text, "prim {prim} mask {mask}")
}

/// The number of the words, and a line for each.
fn fragments_text(alloc: Global, words: &[u64]) -> Result<String, AllocError>
    requires { All (λ word. word < 2 ^ 40) words.now }
    ensures { IfOk result (λ text. string_bytes text ≡ fragments_text (map unpacked words.now)) }
{
    let count = words.len();
    let mut text = format!(in alloc; "fragments {count}\n")?;
    for word in words {
        push_fragment(&mut text, unpack(*word))?;
    }
    Ok(text)
}

/// What a sample's line tells of one word of the sample.
fn push_layer(text: &mut String, word: u64) -> Result<(), AllocError>
    ensures { OnOk result (string_bytes text.new ≡ string_bytes text.old ++ layer_text (layer_of word)) }
{
    let word = SampleWord(word);
    let prim = word.primitive();
    let depth = word.depth_key();
    write!(text, " prim {prim} depth {depth}")
}

/// What it tells of its words, in their order.
fn push_layers(text: &mut String, words: &[u64]) -> Result<(), AllocError>
    ensures { OnOk result (string_bytes text.new ≡ string_bytes text.old ++ flat_map layer_text (map layer_of words.now)) }
{
    for word in words {
        push_layer(text, *word)?;
    }
    Ok(())
}

/// The line of sample k, from its words in order.
fn push_sample(text: &mut String, k: u32, words: &[u64]) -> Result<(), AllocError>
    ensures { OnOk result (string_bytes text.new ≡ string_bytes text.old ++ sample_line k (map layer_of words.now)) }
{
    write!(text, "sample {k}")?;
    push_layers(text, words)?;
    writeln!(text, "")
}

/// A pixel, the words of its fragments in ascending order, and the triangles that they are of.
#[derive(Drop)]
struct Sampled<'a> {
    planes: Planes<'a>,
    words: &'a [u64],
    at: Pixel,
    pattern: Pattern,
    ghost few: { length planes ≤ MAX_PRIMITIVES },
    ghost fit: { All (IsFragmentAt (offsets_of pattern) planes at.x at.y) words.now },
    ghost layers: { TellLayers (offsets_of pattern) planes at.x at.y words.now },
}

impl<'a> Sampled<'a> {
    /// The line of sample k.
    fn push_line(&self, text: &mut String, keys: &mut Vec<u64>, k: u32) -> Result<(), NoMemory>
        requires { k < length (offsets_of self.now.pattern) }
        ensures { OnOk result (string_bytes text.new
            ≡ string_bytes text.old ++ line_of (offsets_of self.now.pattern) self.now.planes self.now.at.x self.now.at.y k) }
    {
        self.planes
            .sample_words(keys, self.words, self.at, self.pattern, k)?;
        push_sample(text, k, keys)?;
        Ok(())
    }

    /// The lines of all samples.
    fn push_samples(&self, alloc: Global, text: &mut String) -> Result<(), NoMemory>
        ensures { OnOk result (string_bytes text.new
            ≡ string_bytes text.old ++ all_samples_text (offsets_of self.now.pattern) self.now.planes self.now.at.x self.now.at.y) }
    {
        let mut keys = Vec::new(alloc);
        for k in 0..self.pattern.size() {
            self.push_line(text, &mut keys, k)?;
        }
        Ok(())
    }

    /// The whole text.
    fn text(&self, alloc: Global) -> Result<String, NoMemory>
        requires { All (λ word. word < 2 ^ 40) self.now.words.now }
        ensures { IfOk result (λ text. string_bytes text
            ≡ fragments_text (map unpacked self.now.words.now) ++ all_samples_text (offsets_of self.now.pattern) self.now.planes self.now.at.x self.now.at.y) }
    {
        let mut text = fragments_text(alloc, self.words)?;
        self.push_samples(alloc, &mut text)?;
        Ok(text)
    }
}

/// The text on a pixel of these triangles, from the words of its fragments in ascending order.
fn pixel_text(
    alloc: Global,
    triangles: &[ScreenTri],
    words: &[u64],
    at: Pixel,
    pattern: Pattern,
) -> Result<String, NoMemory>
    requires few { length triangles.now ≤ MAX_PRIMITIVES }
    requires words { All (λ word. word < 2 ^ 40) words.now }
    requires fit { All (IsFragmentAt (offsets_of pattern) triangles.now at.x at.y) words.now }
    requires layers { TellLayers (offsets_of pattern) triangles.now at.x at.y words.now }
    ensures { IfOk result
        (λ text. string_bytes text ≡ fragments_text (map unpacked words.now) ++ all_samples_text (offsets_of pattern) triangles.now at.x at.y) }
{
    let pixel = Sampled {
        planes: Planes::on_demand(triangles),
        words,
        at,
        pattern,
    };
    pixel.text(alloc)
}

/// The report of a pixel of an image, from the words of its fragments in any order.
fn pixel_report(
    alloc: Global,
    triangles: &[ScreenTri],
    pattern: Pattern,
    region: Region,
    at: Pixel,
    words: Vec<u64>,
) -> Result<List<u8>, NoMemory>
    requires few { length triangles.now ≤ MAX_PRIMITIVES }
    requires corner { (region.x0 ≡ 0) × (region.y0 ≡ 0) }
    requires pixel { (at.x < region.w) × (at.y < region.h) }
    requires words { AreWordsAt (all_fragments triangles.now 0 (offsets_of pattern) region) (at.y * region.w + at.x) words.items }
    ensures { IfOk result (λ bytes. bytes ≡ pixel_report (offsets_of pattern) triangles.now at.x at.y) }
{
    let mut sorted = words;
    sorted.sort_unstable();
    order_law(&sorted, &sorted);
    pixel_law(
        triangles,
        pattern,
        region,
        at.y * region.w() + at.x,
        &sorted,
    );
    let text = pixel_text(alloc, triangles, &sorted, at, pattern)?;
    Ok(List::from_vec(text.into_bytes()))
}

/// The report of pixel (x, y), from the words of its fragments in any order. An error means that memory ran out.
#[tactic(auto, unfolding(crate::specs::Report::report))]
pub(crate) fn report_of(
    alloc: Global,
    drawing: &Drawing,
    x: u32,
    y: u32,
    words: Vec<u64>,
) -> Result<List<u8>, NoMemory>
    requires pixel { (x < drawing.now.job.camera.width) × (y < drawing.now.job.camera.height) }
    requires words { AreWordsAt (fragments drawing.now) (y * drawing.now.job.camera.width + x) words.items }
    ensures { IfOk result (λ bytes. bytes ≡ report drawing.now x y) }
{
    pixel_report(
        alloc,
        drawing.projected().tris.as_slice(),
        drawing.job().pattern(),
        drawing.region(),
        Pixel { x, y },
        words,
    )
}
