// The token of one drawer, and the steps that it makes.
ghost use Rattle.std.specs.Prelude.{IsTrue, ◌≡◌, ℕ, ◌+◌, ◌<◌, ◌≤◌, ◌^◌, ◌-◌, min, length, List, All, ◌≢◌};
ghost use Rattle.abuf_frame.specs.Draws.{CarryInOrder, Draws};
ghost use Rattle.abuf_frame.specs.Look.{FindsList, Looked};
ghost use Rattle.abuf_frame.specs.Stages.{IsFilled, IsSwapped, filled, linked, linked_in, swapped};
ghost use Rattle.abuf_frame.specs.Steps.{claimed, split_left, split_right, grown, having_seen, moved, united};
ghost use Rattle.abuf_frame.specs.Views.{Below, IsSettled, IsWhole, endowment, loose, stage_of};
ghost use Rattle.abuf_frame.specs.Walks.{with_walk};
ghost use Rattle.abuf_frame.specs.declared.look.Look.TheVariants.{Unlinked};
ghost use Rattle.abuf_frame.specs.declared.view.Entry.{Entry};
ghost use Rattle.abuf_frame.specs.declared.view.Stage.TheVariants.{Claimed};
ghost use Rattle.abuf_frame.specs.declared.view.Walk.{Walk};

use crate::frame::Frame;
use crate::look::{Look, look_along};
use crate::steps::{FrameSeat, ViewJoin, claim_at, count_at, fill_at, link_at, split_at, swap_at};
use std::marker::{Brand, Model};

/// The token of one drawer. It belongs to one frame, may be moved to another thread, and can't be dropped: it ends by being
/// joined into another pass or by `Frame::close`. Every call takes the frame that it belongs to, and none waits for another
/// thread or takes memory.
pub struct Pass {
    pub(crate) seat: FrameSeat,
    pub(crate) credit: u64,
    /// The number of its entries, and how many of them are neither Linked nor Lost.
    pub(crate) own: u64,
    pub(crate) loose: u64,
    pub(crate) pixels: u32,
    pub(crate) nodes: u32,
}

impl Model for Pass {
    ghost use Rattle.abuf_frame.specs.Pass.{PassState, Ties};

    ghost Value = { PassState };

    ghost view = { λ p. record { frame = record { table = p.seat.table_id; pixels = p.pixels; nodes = p.nodes }; view = p.seat.me.0 } };

    ghost invariant = { λ p. Ties p.pixels p.nodes p.seat.me p.credit p.own p.loose };
}

/// How many of the numbers have a node.
fn found_nodes(first: u64, count: u64, nodes: u64) -> u64
    ensures { result ≡ min count (nodes - first) }
{
    if first < nodes {
        count.min(nodes - first)
    } else {
        0
    }
}

impl Pass {
    /// Claims `count` numbers that follow each other, by one addition to the counter, and returns the first. No other pass
    /// has them. Each is a new entry: Claimed where the frame has a node for it, and else Lost.
    pub fn claim(&mut self, frame: &Frame, count: u32) -> u64
        requires frame { self.old.frame ≡ frame.now }
        requires credit { (1 ≤ count) × (count ≤ self.old.view.credit) }
        ensures frame { self.new.frame ≡ self.old.frame }
        ensures view { self.new.view ≡ claimed frame.now.nodes result count self.old.view }
        ensures small { result + count ≤ 2 ^ 60 }
        ensures above { Below result self.old.view.entries }
    {
        let words = &frame.table.shared;
        let first = claim_at::<Brand>(words, &mut self.seat, count);
        self.credit -= count as u64;
        self.own += count as u64;
        self.loose += found_nodes(first, count as u64, self.nodes as u64);
        first
    }

    /// Stores the payload of a Claimed entry, which is Filled then.
    pub fn fill(&mut self, frame: &Frame, number: u64, pixel: u32, payload: u64)
        requires frame { self.old.frame ≡ frame.now }
        requires claimed { stage_of number self.old.view.entries ≡ Some Claimed }
        requires pixel { pixel < frame.now.pixels }
        ensures frame { self.new.frame ≡ self.old.frame }
        ensures view { self.new.view ≡ moved number (filled pixel payload) self.old.view }
    {
        let words = &frame.table.shared;
        fill_at::<Brand>(words, &mut self.seat, frame.pixels, number, pixel, payload);
    }

    /// Exchanges the head of the pixel for a Filled entry, and returns the old head: 0 if the list was empty, and otherwise
    /// one more than the number of its first entry. The entry is Swapped then, and the list has it without its next.
    pub fn swap_head(&mut self, frame: &Frame, number: u64, pixel: u32) -> u64
        requires frame { self.old.frame ≡ frame.now }
        requires filled { IsFilled pixel (stage_of number self.old.view.entries) }
        ensures frame { self.new.frame ≡ self.old.frame }
        ensures view { self.new.view ≡ moved number (swapped result) self.old.view }
    {
        let words = &frame.table.shared;
        swap_at::<Brand>(words, &mut self.seat, number, pixel)
    }

    /// Stores the next of a Swapped entry, which is the old head that `swap_head` returned. The entry is Linked then.
    pub fn link(&mut self, frame: &Frame, number: u64, old: u64)
        requires frame { self.old.frame ≡ frame.now }
        requires swapped { IsSwapped old (stage_of number self.old.view.entries) }
        ensures frame { self.new.frame ≡ self.old.frame }
        ensures view { self.new.view ≡ moved number linked self.old.view }
    {
        let words = &frame.table.shared;
        link_at::<Brand>(words, &mut self.seat, frame.pixels, number, old);
        self.loose -= 1;
    }

    /// Fills, swaps and links a Claimed entry.
    fn set_in(&mut self, frame: &Frame, number: u64, pixel: u32, payload: u64)
        requires frame { self.old.frame ≡ frame.now }
        requires claimed { stage_of number self.old.view.entries ≡ Some Claimed }
        requires pixel { pixel < frame.now.pixels }
        ensures frame { self.new.frame ≡ self.old.frame }
        ensures view { (old : ℕ) × (self.new.view ≡ moved number (linked_in pixel payload old) self.old.view) }
    {
        self.fill(frame, number, pixel, payload);
        let old = self.swap_head(frame, number, pixel);
        self.link(frame, number, old);
    }

    /// Adds one entry for each item, a pixel and a payload, by one claim of as many numbers. An empty slice claims none. Returns
    /// whether one of the numbers has no node. From then on no claim finds a node, so [`lose`](Pass::lose) serves for what is still
    /// to be inserted.
    pub fn insert_each(&mut self, frame: &Frame, items: &[(u32, u64)]) -> bool
        requires frame { self.old.frame ≡ frame.now }
        requires credit { length items.now ≤ self.old.view.credit }
        requires count { length items.now < 2 ^ 32 }
        requires pixels { All (λ x. x.0 < frame.now.pixels) items.now }
        ensures frame { self.new.frame ≡ self.old.frame }
        ensures order { (first : ℕ) × (es : List Entry) × CarryInOrder first items.now es × (self.new.view ≡ grown es self.old.view) }
        ensures draws { Draws items.now self.old.view self.new.view }
        ensures full { IsTrue result → ¬ (Below frame.now.nodes self.new.view.entries) }
        ensures endowment { endowment self.new.view ≡ endowment self.old.view }
        ensures loose { loose self.new.view.entries ≡ loose self.old.view.entries }
    {
        if items.is_empty() {
            return false;
        }
        let first = self.claim(frame, items.len() as u32);
        let nodes = frame.nodes as u64;
        for i in 0..items.len() {
            let number = first + i as u64;
            if number < nodes {
                self.set_in(frame, number, items[i].0, items[i].1);
            }
        }
        nodes < first + items.len() as u64
    }

    /// Adds so many Lost entries by one claim. The pass has an entry whose number has no node, so no later number has one either.
    pub fn lose(&mut self, frame: &Frame, count: u32)
        requires frame { self.old.frame ≡ frame.now }
        requires full { ¬ (Below frame.now.nodes self.old.view.entries) }
        requires credit { count ≤ self.old.view.credit }
        ensures frame { self.new.frame ≡ self.old.frame }
        ensures draws { (items : List (ℕ × ℕ)) → length items ≡ count → Draws items self.old.view self.new.view }
        ensures full { ¬ (Below frame.now.nodes self.new.view.entries) }
    {
        if count > 0 {
            self.claim(frame, count);
        }
    }

    /// Splits off a pass with this credit and no entries. It is told of this pass's Linked entries and of those that this pass
    /// was told of, and has seen as great a count.
    pub fn split(&mut self, frame: &Frame, credit: u64) -> Pass
        requires frame { self.old.frame ≡ frame.now }
        requires credit { credit ≤ self.old.view.credit }
        ensures left { (self.new.frame ≡ self.old.frame) × (self.new.view ≡ split_left credit self.old.view) }
        ensures right { (result.frame ≡ self.old.frame) × (result.view ≡ split_right credit self.old.view) }
        ensures endowment { endowment self.new.view + endowment result.view ≡ endowment self.old.view }
    {
        let seat = split_at::<Brand>(&frame.table.shared, &mut self.seat, credit);
        self.credit -= credit;
        Pass {
            seat,
            credit,
            own: 0,
            loose: 0,
            pixels: self.pixels,
            nodes: self.nodes,
        }
    }

    /// Joins the other pass into this one: its credit and entries are added, what it was told is known to this pass too, and
    /// the greater of the counts that were seen is kept.
    pub fn join(&mut self, frame: &Frame, other: Pass)
        requires frame { self.old.frame ≡ frame.now }
        requires other { other.frame ≡ frame.now }
        ensures frame { self.new.frame ≡ self.old.frame }
        ensures view { self.new.view ≡ united self.old.view other.view }
        ensures endowment { endowment self.new.view ≡ endowment self.old.view + endowment other.view }
        ensures loose { loose self.new.view.entries ≡ loose self.old.view.entries + loose other.view.entries }
    {
        let Pass {
            seat,
            credit,
            own,
            loose,
            pixels: _,
            nodes: _,
        } = other;
        let words = &frame.table.shared;
        words.join_seat::<ViewJoin>(&mut self.seat, seat);
        // One more load tells that the endowment is at most the whole.
        count_at::<Brand>(words, &mut self.seat);
        self.credit += credit;
        self.own += own;
        self.loose += loose;
    }

    /// How many numbers all passes have claimed up to the load of the counter. It is above each number of the pass's own and
    /// told entries, so at least as many as these are, and for a whole pass it is the number of its entries.
    pub fn count(&mut self, frame: &Frame) -> u64
        requires frame { self.old.frame ≡ frame.now }
        ensures frame { self.new.frame ≡ self.old.frame }
        ensures view { self.new.view ≡ having_seen result self.old.view }
        ensures seen { self.old.view.seen ≤ result }
        ensures known { Below result self.old.view.entries × Below result self.old.view.told }
        ensures whole { IsWhole self.old.view → result ≡ length self.old.view.entries }
    {
        count_at::<Brand>(&frame.table.shared, &mut self.seat)
    }

    /// How many numbers the pass may still claim.
    pub fn credit(&self) -> u64
        ensures { result ≡ self.now.view.credit }
    {
        self.credit
    }

    /// Walks along the list of the pixel as it stands, from its newest node, and writes the payloads into `out`, whose other
    /// places stay as they were. For each node it loads the payload, then the next, and writes the payload only where the
    /// next is there. After `All`, every Linked entry of this pass at the pixel, and every one that it was told of, is in
    /// the list. A whole, settled pass never meets a node that is not linked. It finds the list that `Frame::close` would give:
    /// the whole of it after `All`, and its first payloads after `More`.
    pub fn look(&mut self, frame: &Frame, pixel: u32, out: &mut [u64]) -> Look
        requires frame { self.old.frame ≡ frame.now }
        requires pixel { pixel < frame.now.pixels }
        ensures frame { self.new.frame ≡ self.old.frame }
        ensures walk { (w : Walk) × (self.new.view ≡ with_walk w self.old.view) × Looked pixel self.old.view out.old out.new result w }
        ensures linked { IsWhole self.old.view → IsSettled self.old.view → (n : ℕ) → result ≢ Unlinked n }
        ensures list { FindsList pixel self.old.view result out.new }
    {
        look_along(
            &frame.table.shared,
            &mut self.seat,
            frame.pixels,
            frame.nodes,
            pixel,
            out,
        )
    }
}
