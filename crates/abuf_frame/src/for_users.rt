// Calls for users of the crate, which the program doesn't use.
ghost use Rattle.std.specs.Prelude.{◌≡◌, ℕ, ◌<◌, ◌≤◌, ◌^◌, ◌↔◌, IfOk, IsTrue, List, [], ◌∷◌, length, All};
ghost use Rattle.abuf_frame.specs.Closing.{list_at};
ghost use Rattle.abuf_frame.specs.Draws.{CarryInOrder, Draws};
ghost use Rattle.abuf_frame.specs.Steps.{grown};
ghost use Rattle.abuf_frame.specs.Views.{IsSettled, IsWhole, endowment, loose};
ghost use Rattle.abuf_frame.specs.declared.view.Entry.{Entry};

use crate::closed::Closed;
use crate::closed::lanes::advance;
use crate::frame::{Frame, WHOLE};
use crate::pass::Pass;
use abuf_num::{List, NoMemory};
use std::alloc::Global;

impl Pass {
    /// Adds one entry: Linked with this pixel and payload, or Lost.
    pub fn insert(&mut self, frame: &Frame, pixel: u32, payload: u64)
        requires frame { self.old.frame ≡ frame.now }
        requires credit { 1 ≤ self.old.view.credit }
        requires pixel { pixel < frame.now.pixels }
        ensures frame { self.new.frame ≡ self.old.frame }
        ensures draws { Draws ((pixel, payload) ∷ []) self.old.view self.new.view }
        ensures endowment { endowment self.new.view ≡ endowment self.old.view }
        ensures loose { loose self.new.view.entries ≡ loose self.old.view.entries }
    {
        self.insert_all(frame, &[(pixel, payload)]);
    }

    /// Adds one entry for each item, a pixel and a payload, by one claim of as many numbers. An empty slice claims none.
    pub fn insert_all(&mut self, frame: &Frame, items: &[(u32, u64)])
        requires frame { self.old.frame ≡ frame.now }
        requires credit { length items.now ≤ self.old.view.credit }
        requires count { length items.now < 2 ^ 32 }
        requires pixels { All (λ x. x.0 < frame.now.pixels) items.now }
        ensures frame { self.new.frame ≡ self.old.frame }
        ensures order { (first : ℕ) × (es : List Entry) × CarryInOrder first items.now es × (self.new.view ≡ grown es self.old.view) }
        ensures draws { Draws items.now self.old.view self.new.view }
        ensures endowment { endowment self.new.view ≡ endowment self.old.view }
        ensures loose { loose self.new.view.entries ≡ loose self.old.view.entries }
    {
        self.insert_each(frame, items);
    }

    /// Whether the pass has the endowment of all passes of its frame together, so that no other has credit or entries.
    pub fn whole(&self) -> bool
        ensures { IsTrue result ↔ IsWhole self.now.view }
    {
        self.credit + self.own == WHOLE
    }

    /// Whether each of its entries is Linked or Lost.
    pub fn settled(&self) -> bool
        ensures { IsTrue result ↔ IsSettled self.now.view }
    {
        self.loose == 0
    }
}

impl Closed {
    /// The payloads of the pixel's fragments, in the order of the walk from its head: the entry that was swapped in last
    /// stands first, whatever the order of the links. The cost grows with the list. Whoever reads many lists takes a `ListReader`.
    pub fn list(&self, alloc: Global, pixel: u32) -> Result<List<u64>, NoMemory>
        requires { pixel < self.now.pixels }
        ensures { IfOk result (λ l. l ≡ list_at self.now pixel) }
    {
        let mut items = Vec::new(alloc);
        self.copy_list(pixel, &mut items)?;
        Ok(List::from_vec(items))
    }

    /// Makes a buffer hold the payloads of the pixel's list. When memory runs out it holds some of them.
    fn copy_list(&self, pixel: u32, items: &mut Vec<u64>) -> Result<(), NoMemory>
        requires { pixel < self.now.pixels }
        ensures { IfOk result (λ _. items.new.items ≡ list_at self.now pixel) }
    {
        items.clear();
        let mut at = self.words.word(1 + pixel as usize);
        for _ in 0..self.table_nodes {
            if at == 0 {
                break;
            }
            at = advance(&self.words, self.pixels, at, items)?;
        }
        Ok(())
    }
}
