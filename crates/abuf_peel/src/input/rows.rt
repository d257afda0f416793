// The rows of an image, peeled until nothing is left.
ghost use Rattle.std.specs.Prelude.{◌≡◌, ◌+◌, ◌-◌, ◌*◌, ◌<◌, ◌≤◌, IfOk};
ghost use Rattle.abuf_raster.specs.Samples.{offsets_of};
ghost use Rattle.abuf_peel.specs.Layers.{AreWhole, StandsFor};
ghost use Rattle.abuf_peel.specs.Members.{HaveAll};
ghost use Rattle.abuf_peel.specs.Rows.{AreSums, HaveAllIn, chunk_count, chunk_rows, rows_of};

use crate::input::PeelInput;
use crate::layer::Layer;
use abuf_num::{List, NoMemory, PixelSum};
use abuf_raster::{Region, region_law};
use std::alloc::Global;

/// The rows of a chunk, of those of an image of this height.
fn chunk_rows(height: u32, n: u32) -> u32
    requires { n < chunk_count height }
    ensures value { result ≡ chunk_rows height n }
    ensures some { 1 ≤ result }
    ensures within { 4 * n + result ≤ height }
{
    (height - 4 * n).min(4)
}

impl<'a, 'b> PeelInput<'a, 'b> {
    /// Takes 16 layers at once until no sample has a primitive left: no more often than there are members. Each time members that
    /// are done with are dropped, so that fewer are offered later.
    fn exhaust(&self, layer: &mut Layer, members: &mut Vec<u32>)
        requires members { HaveAll (offsets_of layer.old.pattern) self.now.tris.now layer.old.region members.old.items }
        requires start { StandsFor self.now.background self.now.tris.now self.now.paints.now 0 layer.old }
        ensures region { layer.new.region ≡ layer.old.region }
        ensures pattern { layer.new.pattern ≡ layer.old.pattern }
        ensures whole { AreWhole self.now.background self.now.tris.now self.now.paints.now layer.new }
    {
        region_law(layer.region());
        for _n in 0..members.len() {
            if !layer.step_over(self.tris, self.paints, members) {
                return;
            }
        }
    }

    /// So many rows of pixels, from row y on.
    fn rows_of(&self, y: u32, count: u32) -> Region
        requires some { 1 ≤ count }
        requires within { y + count ≤ self.now.height }
        ensures { result ≡ rows_of self.now y count }
    {
        Region::new(0, y, self.width, count)
    }

    /// The sums of one row of pixels, from the primitives that cover one of its samples. Drops members that
    /// are done with.
    fn row_sums(
        &self,
        alloc: Global,
        members: &mut Vec<u32>,
        y: u32,
    ) -> Result<List<PixelSum>, NoMemory>
        requires y { y < self.now.height }
        requires members { HaveAllIn self.now (rows_of self.now y 1) members.old.items }
        ensures { IfOk result (AreSums self.now y 1) }
    {
        let row = self.rows_of(y, 1);
        let mut layer = Layer::start(alloc, row, self.pattern, self.background)?;
        self.exhaust(&mut layer, members);
        let sums = layer.sums(alloc)?;
        Ok(sums)
    }

    /// The sums of a chunk's rows. The primitives that cover a sample of the chunk are found once, and each row's are among them.
    pub(crate) fn chunk_sums(&self, alloc: Global, n: u32) -> Result<List<PixelSum>, NoMemory>
        requires { n < chunk_count self.now.height }
        ensures { IfOk result (AreSums self.now (4 * n) (chunk_rows self.now.height n)) }
    {
        let rows = chunk_rows(self.height, n);
        let chunk = self.keep_all(alloc, self.rows_of(4 * n, rows))?;
        let mut members = Vec::new(alloc);
        let mut sums = Vec::with_capacity(alloc, (self.width * rows) as usize)?;
        for i in 0..rows {
            let y = 4 * n + i;
            self.keep(&mut members, &chunk, self.rows_of(y, 1))?;
            let row = self.row_sums(alloc, &mut members, y)?;
            sums.extend_from_slice(row.as_slice())?;
        }
        Ok(List::from_vec(sums))
    }
}
