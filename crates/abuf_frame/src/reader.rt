// The lists of a closed frame, read for one pixel after another.
ghost use Rattle.std.specs.Prelude.{◌≡◌, ℕ, ◌+◌, ◌<◌, IfOk, IfSome, length, map, slice_index_or, vec_items, []};
ghost use Rattle.abuf_frame.specs.Closing.{list_at};
ghost use Rattle.abuf_frame.specs.Reading.{list_in};

use crate::closed::Closed;
use abuf_num::NoMemory;
use std::alloc::Global;
use std::marker::Model;

/// The buffers of sixteen lists: those of eight neighbouring pixels, and those of eight others.
#[derive(Drop)]
struct Buffers {
    lists: [Vec<u64>; 8],
    others: [Vec<u64>; 8],
}

/// Eight empty buffers. They take no memory.
fn none_held(alloc: Global) -> [Vec<u64>; 8]
    ensures length { length result ≡ 8 }
    ensures empty { (k : ℕ) → slice_index_or (map vec_items result) k [] ≡ [] }
{
    [
        Vec::new(alloc),
        Vec::new(alloc),
        Vec::new(alloc),
        Vec::new(alloc),
        Vec::new(alloc),
        Vec::new(alloc),
        Vec::new(alloc),
        Vec::new(alloc),
    ]
}

impl Buffers {
    /// One of the lists.
    #[inline(always)]
    fn list(&self, lane: usize) -> &[u64]
        requires lane { lane < 16 }
        requires eight { (length self.now.lists ≡ 8) × (length self.now.others ≡ 8) }
        ensures { result.now ≡ list_in (map vec_items self.now.lists) (map vec_items self.now.others) lane }
    {
        if lane < 8 {
            self.lists[lane].as_slice()
        } else {
            self.others[lane - 8].as_slice()
        }
    }
}

/// Reads the lists of a closed frame. Those of neighbouring pixels are copied together: of the pixel that is asked and the seven that
/// follow, and of eight that lie at a distance behind these. So pixels are best read in their order, or by pairs of rows; any order
/// gives the same lists. Each thread takes a reader of its own. Contracts see the frame, and the list that was read last.
#[derive(Drop)]
pub struct ListReader<'a> {
    closed: &'a Closed,
    /// Whether the buffers hold the lists of the eight pixels from `first` on, and of the eight from `other` on.
    is_held: bool,
    first: u32,
    other: u32,
    /// How far behind the pixel that is asked the other eight lie.
    distance: u32,
    buffers: Buffers,
    /// Which of the buffers has the list that was read last.
    lane: usize,
}

impl<'a> Model for ListReader<'a> {
    ghost use Rattle.std.specs.Prelude.{◌<◌, ◌≡◌, IsTrue, length, map, vec_items};
    ghost use Rattle.abuf_frame.specs.Reading.{HoldsEight, Reading, list_in};

    ghost Value = { Reading };

    ghost view = { λ r. record { frame = r.closed.now; list = list_in (map vec_items r.buffers.lists) (map vec_items r.buffers.others) r.lane } };

    ghost invariant = { λ r. (r.lane < 16) × (length r.buffers.lists ≡ 8) × (length r.buffers.others ≡ 8)
        × (IsTrue r.is_held → HoldsEight r.closed.now r.first (map vec_items r.buffers.lists) × HoldsEight r.closed.now r.other (map vec_items r.buffers.others)) };
}

/// Which of the eight pixels from the first on this one is, if it is one of them.
#[inline(always)]
fn place_among(first: u32, pixel: u32) -> Option<usize>
    ensures { IfSome result (λ k. (k < 8) × (first + k ≡ pixel)) }
{
    if first <= pixel && pixel - first < 8 {
        Some((pixel - first) as usize)
    } else {
        None
    }
}

impl<'a> ListReader<'a> {
    pub(crate) fn new(closed: &'a Closed, alloc: Global, distance: u32) -> ListReader<'a>
        ensures frame { result.frame ≡ closed.now }
        ensures list { result.list ≡ [] }
    {
        ListReader {
            closed,
            is_held: false,
            first: 0,
            other: 0,
            distance,
            buffers: Buffers {
                lists: none_held(alloc),
                others: none_held(alloc),
            },
            lane: 0,
        }
    }

    /// Reads the list of the pixel. The cost grows with the longest of the sixteen lists that are copied, and with their sum. An
    /// error means that memory ran out; what was read last is then left open.
    #[inline(always)]
    pub fn read(&mut self, pixel: u32) -> Result<(), NoMemory>
        requires { pixel < self.old.frame.pixels }
        ensures frame { self.new.frame ≡ self.old.frame }
        ensures list { IfOk result (λ _. self.new.list ≡ list_at self.old.frame pixel) }
    {
        if self.is_held {
            if let Some(k) = place_among(self.first, pixel) {
                self.lane = k;
                return Ok(());
            }
            if let Some(k) = place_among(self.other, pixel) {
                self.lane = 8 + k;
                return Ok(());
            }
        }
        let other = pixel.saturating_add(self.distance);
        self.is_held = false;
        self.closed.copy_eights(
            pixel,
            other,
            &mut self.buffers.lists,
            &mut self.buffers.others,
        )?;
        self.first = pixel;
        self.other = other;
        self.lane = 0;
        self.is_held = true;
        Ok(())
    }

    /// The payloads of the list that was read last, in the order of the walk from its head.
    #[inline(always)]
    pub fn list(&self) -> &[u64]
        ensures { result.now ≡ self.now.list }
    {
        self.buffers.list(self.lane)
    }
}
