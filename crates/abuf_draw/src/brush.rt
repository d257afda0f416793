// Triangles, put into the frame one after another.
ghost use Rattle.std.specs.Prelude.{◌≡◌, ◌+◌, ◌*◌, ◌<◌, ◌≤◌, false, [], length, map, take, All};
ghost use Rattle.abuf_num.specs.declared.limits.TheConstants.{MAX_PRIMITIVES};
ghost use Rattle.abuf_raster.specs.Samples.{offsets_of};
ghost use Rattle.abuf_raster.specs.Hits.{IsHitIn, fragments, placed};
ghost use Rattle.abuf_frame.specs.Draws.{Draws};
ghost use Rattle.abuf_draw.specs.Waiting.{KnowsFull, Passes};

use crate::batch::Batch;
use abuf_frame::{Frame, Pass};
use abuf_raster::{Hit, NO_HIT, Pattern, Region, ScreenTri, TileHits, count_hits, meets};

/// Draws triangles into a region, sampled in a pattern. Up to 64 fragments of successive triangles wait, and are then put into the
/// frame by one claim. A claim costs as much as a fragment, and more if many threads draw. After the last triangle those that still
/// wait are flushed. Once the pool is full, every further fragment is lost. So the fragments of a triangle are then only counted,
/// which is much faster than finding them.
#[derive(Drop)]
pub struct Brush {
    /// The pixels into which it draws.
    pub region: Region,
    /// Where the samples of a pixel lie.
    pub pattern: Pattern,
    /// Whether a claim of its pass has come to the end of the pool.
    pub full: bool,
    hits: [Hit; 64],
    batch: Batch,
    ghost long: { length hits ≡ 64 },
    ghost placed: { All (λ x. x.0 < region.w * region.h) batch },
}

impl Brush {
    /// A brush of which no fragment waits.
    pub fn new(region: Region, pattern: Pattern) -> Brush
        ensures brush { (result.region ≡ region) × (result.pattern ≡ pattern) }
        ensures none { result.batch ≡ [] }
        ensures full { result.full ≡ false }
    {
        Brush {
            region,
            pattern,
            full: false,
            hits: [NO_HIT; 64],
            batch: Batch::new(),
        }
    }

    /// Puts the fragments that wait into the frame, by one claim.
    pub fn flush(&mut self, frame: &Frame, pass: &mut Pass)
        requires frame { pass.old.frame ≡ frame.now }
        requires pixels { self.old.region.w * self.old.region.h ≤ frame.now.pixels }
        requires credit { length self.old.batch ≤ pass.old.view.credit }
        requires full { KnowsFull self.old.full frame.now.nodes pass.old.view }
        ensures brush { (self.new.region ≡ self.old.region) × (self.new.pattern ≡ self.old.pattern) × (self.new.hits ≡ self.old.hits) }
        ensures none { self.new.batch ≡ [] }
        ensures frame { pass.new.frame ≡ pass.old.frame }
        ensures draws { Draws self.old.batch pass.old.view pass.new.view }
        ensures full { KnowsFull self.new.full frame.now.nodes pass.new.view }
    {
        if pass.insert_each(frame, self.batch.as_slice()) {
            self.full = true;
        }
        self.batch.clear();
    }

    /// Lets the first `count` hits wait for their claim. Those that wait already are put into the frame first where there is no room
    /// for both.
    #[tactic(auto, using(crate::proofs::Drawing::passes_flushed, crate::proofs::Drawing::passes_waiting))]
    fn add(&mut self, frame: &Frame, pass: &mut Pass, count: usize)
        requires frame { pass.old.frame ≡ frame.now }
        requires count { count ≤ 64 }
        requires within { All (IsHitIn self.old.region) (take count self.old.hits) }
        requires pixels { self.old.region.w * self.old.region.h ≤ frame.now.pixels }
        requires credit { length self.old.batch ≤ pass.old.view.credit }
        requires full { KnowsFull self.old.full frame.now.nodes pass.old.view }
        ensures brush { (self.new.region ≡ self.old.region) × (self.new.pattern ≡ self.old.pattern) }
        ensures frame { pass.new.frame ≡ pass.old.frame }
        ensures passes { Passes self.old.batch (map (placed self.old.region) (take count self.old.hits)) self.new.batch pass.old.view pass.new.view }
        ensures full { KnowsFull self.new.full frame.now.nodes pass.new.view }
    {
        if !self.batch.has_room(count) {
            self.flush(frame, pass);
        }
        self.batch.add(self.region, &self.hits[..count]);
    }

    /// Draws the triangle as primitive number `prim`, as [`draw`] does, but that some of its fragments may wait with those that
    /// waited before.
    pub fn draw(&mut self, frame: &Frame, pass: &mut Pass, t: &ScreenTri, prim: u32)
        requires frame { pass.old.frame ≡ frame.now }
        requires prim { prim < MAX_PRIMITIVES }
        requires pixels { self.old.region.w * self.old.region.h ≤ frame.now.pixels }
        requires credit { length self.old.batch + self.old.region.w * self.old.region.h ≤ pass.old.view.credit }
        requires full { KnowsFull self.old.full frame.now.nodes pass.old.view }
        ensures brush { (self.new.region ≡ self.old.region) × (self.new.pattern ≡ self.old.pattern) }
        ensures frame { pass.new.frame ≡ pass.old.frame }
        ensures full { KnowsFull self.new.full frame.now.nodes pass.new.view }
        ensures passes { Passes self.old.batch (fragments t.now prim (offsets_of self.old.pattern) self.old.region) self.new.batch pass.old.view pass.new.view }
        ensures few { pass.old.view.credit + length self.new.batch ≤ pass.new.view.credit + length self.old.batch + self.old.region.w * self.old.region.h }
    {
        // For a triangle outside of the region, this is much faster than setting up its tiles.
        if !meets(t, self.region, self.pattern) {
            return;
        }
        if self.full {
            pass.lose(frame, count_hits(t, self.region, self.pattern));
            return;
        }
        let mut tiles = TileHits::new(t, prim, self.region, self.pattern);
        while let Some(count) = tiles.next_tile(&mut self.hits) {
            self.add(frame, pass, count);
        }
    }
}
