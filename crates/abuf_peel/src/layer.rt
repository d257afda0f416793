// The samples of a region, peeled layer by layer.
ghost use Rattle.std.specs.Prelude.{◌≡◌, ◌≤◌, false, length, IfOk};
ghost use Rattle.std.specs.List.{All};
ghost use Rattle.abuf_num.specs.declared.limits.TheConstants.{MAX_PRIMITIVES};
ghost use Rattle.abuf_resolve.specs.Sums.{IsSmall};
ghost use Rattle.abuf_peel.specs.Layers.{NoneLeft, StandsForNone, TakesTimes, layer_sums, size_of, started};
ghost use Rattle.abuf_peel.specs.Members.{HaveLeft};

use crate::input::PaintedTriangles;
use crate::offering::{Samples, no_words};
use crate::sums::layer_sums;
use abuf_num::{List, NoMemory, Paint, PixelSum};
use abuf_raster::{Pattern, Region, ScreenTri};
use std::alloc::Global;
use std::marker::Model;

/// The samples of a region, as peeling goes on. Each has a colour, and knows the last primitive that it took. Clauses see the
/// region, the pattern and, for each sample, the word from which on primitives are left, and the colour.
#[derive(Drop)]
pub struct Layer {
    pub(crate) region: Region,
    pub(crate) pattern: Pattern,
    /// For each sample 0, or one above the word of the last primitive taken: its depth key times 2^24, plus its number. So equal
    /// keys need no case of their own.
    pub(crate) from: Vec<u64>,
    /// What a step finds: for each sample the words of its next 16 primitives. They are found together, since the walk over the
    /// primitives takes longer than all else. For a row of 4096 pixels with 16 samples these words take 8 MiB.
    pub(crate) best: Vec<[u64; 16]>,
    pub(crate) colours: Vec<[u16; 3]>,
}

impl Model for Layer {
    ghost use Rattle.abuf_peel.specs.Layers.{IsLayer, Peeled};

    ghost Value = { Peeled };

    ghost view = { λ l. record { region = l.region; pattern = l.pattern; from = l.from.items; colours = l.colours.items } };

    ghost invariant = { λ l. IsLayer l.region l.pattern l.from.items l.best.items l.colours.items };
}

impl Layer {
    /// The samples of the region in the background's colour, with nothing taken yet. An error means that memory ran out.
    pub fn start(
        alloc: Global,
        region: Region,
        pattern: Pattern,
        background: [u16; 3],
    ) -> Result<Layer, NoMemory>
        ensures value { IfOk result (λ l. l ≡ started region pattern background) }
        ensures layers { IfOk result (StandsForNone background) }
    {
        let count = region.pixels() as usize * pattern.size() as usize;
        let from = vec![in alloc; 0; count]?;
        let best = vec![in alloc; no_words(); count]?;
        let colours = vec![in alloc; background; count]?;
        Ok(Layer {
            region,
            pattern,
            from,
            best,
            colours,
        })
    }

    /// The region of the layer.
    pub(crate) fn region(&self) -> Region
        ensures { result ≡ self.now.region }
    {
        self.region
    }

    /// Every sample takes its next 16 primitives, or all that it has left. At the call, `members` must name every primitive that a
    /// sample still takes. Primitives of which nothing is left are removed from it. Returns false only if no sample has a primitive
    /// left afterwards.
    pub(crate) fn step_over(
        &mut self,
        tris: &[ScreenTri],
        paints: &[Paint],
        members: &mut Vec<u32>,
    ) -> bool
        requires few { length tris.now ≤ MAX_PRIMITIVES }
        requires paints { length paints.now ≡ length tris.now }
        requires members { HaveLeft tris.now self.old.region self.old.pattern self.old.from members.old.items }
        ensures takes { TakesTimes tris.now paints.now 16 self.old self.new }
        ensures members { HaveLeft tris.now self.new.region self.new.pattern self.new.from members.new.items }
        ensures none { result ≡ false → NoneLeft tris.now self.new }
    {
        let samples = Samples {
            region: self.region,
            pattern: self.pattern,
        };
        let drawn = PaintedTriangles { tris, paints };
        let from = &mut self.from;
        samples.take_next_of(&drawn, members, from, &mut self.best, &mut self.colours)
    }

    /// The sums of the samples' colours, for each pixel in order. An error means that memory ran out.
    pub fn sums(&self, alloc: Global) -> Result<List<PixelSum>, NoMemory>
        ensures value { IfOk result (λ sums. sums ≡ layer_sums self.now) }
        ensures small { IfOk result (λ sums. All (IsSmall (size_of self.now.pattern)) sums) }
    {
        layer_sums(
            alloc,
            &self.colours,
            self.pattern.size(),
            self.region.pixels(),
        )
    }
}
