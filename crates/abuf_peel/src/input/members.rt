// Which primitives are offered to a row: only those whose box meets it.
ghost use Rattle.std.specs.Prelude.{◌<◌, length, IfOk};
ghost use Rattle.std.specs.List.{All};
ghost use Rattle.abuf_raster.specs.Samples.{offsets_of};
ghost use Rattle.abuf_peel.specs.Members.{HaveAll, Keep, KeepsOne};

use crate::input::PeelInput;
use abuf_num::NoMemory;
use abuf_raster::{Region, meets};
use std::alloc::Global;

impl<'a, 'b> PeelInput<'a, 'b> {
    /// Puts the primitive of this number last, where its box meets the region.
    fn keep_one(&self, members: &mut Vec<u32>, n: u32, region: Region) -> Result<(), NoMemory>
        requires { n < length self.now.tris.now }
        ensures { IfOk result (λ _. KeepsOne (offsets_of self.now.pattern) self.now.tris.now region n members.old.items members.new.items) }
    {
        if meets(&self.tris[n as usize], region, self.pattern) {
            members.push(n)?;
        }
        Ok(())
    }

    /// Puts those of some primitives whose box meets the region into a buffer, in their order.
    pub(crate) fn keep(
        &self,
        members: &mut Vec<u32>,
        among: &[u32],
        region: Region,
    ) -> Result<(), NoMemory>
        requires { All (λ n. n < length self.now.tris.now) among.now }
        ensures { IfOk result (λ _. Keep (offsets_of self.now.pattern) self.now.tris.now region among.now members.new.items) }
    {
        members.clear();
        for n in among {
            self.keep_one(members, *n, region)?;
        }
        Ok(())
    }

    /// The numbers of all primitives whose box meets the region, in order.
    pub(crate) fn keep_all(&self, alloc: Global, region: Region) -> Result<Vec<u32>, NoMemory>
        ensures { IfOk result (λ members. HaveAll (offsets_of self.now.pattern) self.now.tris.now region members.items) }
    {
        let mut members = Vec::new(alloc);
        for n in 0..self.tris.len() {
            self.keep_one(&mut members, n as u32, region)?;
        }
        Ok(members)
    }
}
