// The traits of the outside.
ghost use Rattle.std.specs.Prelude.{◌≡◌, ◌<◌, List as Items, Bool, ℕ, length, Ok};
ghost use Rattle.std.specs.declared.option.Option.{Option as Maybe};
ghost use Rattle.std.specs.Io.{ReadsAtMost, WritesAtMost};
ghost use Rattle.std.specs.Io.KnownBytes.{ReadConsumes, WriteAppends};
ghost use Rattle.abuf_io.specs.Causes.{HasCause, Rose, next_count};
ghost use Rattle.abuf_io.specs.Fetching.{IsFetch, HasFetchCause};

use abuf_num::List;
use std::alloc::Global;

/// The outside failed. It comes only where the count of faults rose in the call.
#[derive(Clone, Copy, Debug, PartialEq, Eq)]
pub struct Failed;

/// Where bytes come from, as a file or a terminal.
pub trait Source {
    /// The bytes that are still to come, where the source tells them.
    ghost left: { Self → Maybe (Items ℕ) };

    /// How often it has failed. It never falls.
    ghost faults: { Self → ℕ };

    /// Puts the next bytes at the buffer's beginning, and returns how many. None in a buffer that
    /// isn't empty means the end. After `Failed` the bytes that are left are unchanged.
    fn read(&mut self, buf: &mut [u8]) -> Result<usize, Failed>
        ensures bound { ReadsAtMost result buf.new }
        ensures bytes { ReadConsumes (left self.old) (left self.new) result buf.new }
        ensures cause { HasCause (faults self.old) (faults self.new) result };
}

/// Where bytes go, as a file or a terminal.
pub trait Sink {
    /// All bytes taken so far, where the sink tells them.
    ghost taken: { Self → Maybe (Items ℕ) };

    /// How often it has failed. It never falls.
    ghost faults: { Self → ℕ };

    /// Takes some of the bytes, from the front, and returns how many. It takes none where some are
    /// offered only where the count of faults rose. After `Failed` it took none.
    fn write(&mut self, bytes: &[u8]) -> Result<usize, Failed>
        ensures bound { WritesAtMost result bytes.now }
        ensures bytes { WriteAppends (taken self.old) (taken self.new) result bytes.now }
        ensures none { result ≡ Ok 0 → 0 < length bytes.now → Rose (faults self.old) (faults self.new) }
        ensures cause { HasCause (faults self.old) (faults self.new) result };
}

/// Why a shelf gave nothing.
#[derive(Clone, Copy, Debug, PartialEq, Eq)]
pub enum Fetch {
    /// Nothing is held under the name.
    Missing,
    /// The content is longer than the limit.
    TooLong,
    /// The shelf failed. It comes only where its count of faults rose in the call.
    Failed,
    /// Memory ran out.
    Memory,
}

/// Contents under names, as the files of a folder.
pub trait Shelf {
    /// Whether it tells its contents.
    ghost tells: { Self → Bool };

    /// The content under a name, or nothing. Clauses speak of it only where the shelf tells.
    ghost holds: { Self → Items ℕ → Maybe (Items ℕ) };

    /// How often it was asked, up to 2^64 - 1, where it stays.
    ghost calls: { Self → ℕ };

    /// How often it has failed. It never falls.
    ghost faults: { Self → ℕ };

    /// The content under a name, if it has at most `limit` bytes. `Missing` and `TooLong` yield to
    /// `Failed` and `Memory`.
    fn fetch(&mut self, alloc: Global, name: &[u8], limit: u64) -> Result<List<u8>, Fetch>
        ensures content { IsFetch (tells self.old) (holds self.old name.now) limit result }
        ensures tells { tells self.new ≡ tells self.old }
        ensures holds { (other : Items ℕ) → holds self.new other ≡ holds self.old other }
        ensures calls { calls self.new ≡ next_count (calls self.old) }
        ensures cause { HasFetchCause (faults self.old) (faults self.new) result };
}
