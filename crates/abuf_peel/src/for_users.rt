// Calls for users of the crate, which the program doesn't use.
ghost use Rattle.std.specs.Prelude.{◌≡◌, ◌≤◌, false, true, length};
ghost use Rattle.abuf_num.specs.declared.limits.TheConstants.{MAX_PRIMITIVES};
ghost use Rattle.abuf_peel.specs.Layers.{NoneLeft, OneStepMore, SomeLeft, Takes, TakesTimes, count_of};
ghost use Rattle.abuf_peel.specs.Offers.{AreNext};
ghost use Rattle.abuf_peel.specs.Seen.{seen_of};

use crate::input::PaintedTriangles;
use crate::layer::Layer;
use crate::offering::{Samples, clear};
use abuf_num::Paint;
use abuf_raster::{NO_HIT, ScreenTri};

impl Layer {
    /// Every sample takes the lowest primitive above the last one taken that covers it, by its depth key there and then by its
    /// number, and lays its paint over the colour. A sample without such a primitive stays. Returns true exactly if some sample took
    /// one. There is a paint for each of at most `MAX_PRIMITIVES` triangles. Takes no memory.
    pub fn step(&mut self, tris: &[ScreenTri], paints: &[Paint]) -> bool
        requires few { length tris.now ≤ MAX_PRIMITIVES }
        requires paints { length paints.now ≡ length tris.now }
        ensures takes { Takes tris.now paints.now self.old self.new }
        ensures layers { OneStepMore tris.now paints.now self.old self.new }
        ensures none { result ≡ false → NoneLeft tris.now self.old }
        ensures some { result ≡ true → SomeLeft tris.now self.old }
    {
        let samples = Samples {
            region: self.region,
            pattern: self.pattern,
        };
        let drawn = PaintedTriangles { tris, paints };
        samples.take_next(&drawn, &mut self.from, &mut self.best, &mut self.colours)
    }
}

impl Samples {
    /// Every sample takes its next primitive. Returns true exactly if some sample took one.
    fn take_next(
        &self,
        drawn: &PaintedTriangles,
        from: &mut [u64],
        best: &mut [[u64; 16]],
        colours: &mut [[u16; 3]],
    ) -> bool
        requires from { length from.old ≡ count_of self.now.region self.now.pattern }
        requires best { length best.old ≡ count_of self.now.region self.now.pattern }
        requires colours { length colours.old ≡ count_of self.now.region self.now.pattern }
        ensures sizes { (length from.new ≡ length from.old) × (length best.new ≡ length best.old) × (length colours.new ≡ length colours.old) }
        ensures takes { TakesTimes drawn.now.tris.now drawn.now.paints.now 1 (seen_of self.now from.old colours.old) (seen_of self.now from.new colours.new) }
        ensures none { result ≡ false → NoneLeft drawn.now.tris.now (seen_of self.now from.old colours.old) }
        ensures some { result ≡ true → SomeLeft drawn.now.tris.now (seen_of self.now from.old colours.old) }
    {
        self.offer_all(drawn.tris, from, best);
        self.take(drawn, 1, best, from, colours)
    }

    /// Finds the words of the next 16 primitives of each sample.
    fn offer_all(&self, tris: &[ScreenTri], from: &[u64], best: &mut [[u64; 16]])
        requires few { length tris.now ≤ MAX_PRIMITIVES }
        requires from { length from.now ≡ count_of self.now.region self.now.pattern }
        requires best { length best.old ≡ count_of self.now.region self.now.pattern }
        ensures { AreNext tris.now self.now.region self.now.pattern from.now best.new }
    {
        let mut hits = [NO_HIT; 64];
        clear(best);
        for n in 0..tris.len() {
            self.offer(tris, n as u32, &mut hits, from, best);
        }
    }
}
