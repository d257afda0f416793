// The words of a table that no thread changes any more.
ghost use Rattle.std.specs.Prelude.{◌≡◌, ◌<◌, slice_index, length};
ghost use Rattle.std.specs.Mem.Slots.{slots_items, slots_len, IsFull};
ghost use base.Fml.{ftrue};

use atomic_table::Closed;
use std::alloc::Global;
use std::marker::{Model, Send, Sync};

/// A closed table in a form that may be shared between threads, which a `Closed` may not.
struct SyncTable {
    table: Closed<(), Global>,
}

impl Model for SyncTable {
    ghost also_owns = { λ _. ftrue };

    ghost also_shares = { λ _ _ _. ftrue };
}

// A `&` reads words that no thread writes, and any thread may give the block back.
unsafe impl Sync for SyncTable {}

// The block isn't tied to the thread that took it.
unsafe impl Send for SyncTable {}

impl SyncTable {
    fn new(table: Closed<(), Global>) -> SyncTable
        ensures { result.table ≡ table }
    {
        SyncTable { table }
    }

    #[inline(always)]
    fn get(&self) -> &Closed<(), Global>
        ensures { result.now ≡ self.now.table }
    {
        &self.table
    }

    fn into_table(self) -> Closed<(), Global>
        ensures { result ≡ self.table }
    {
        let SyncTable { table } = self;
        table
    }
}

/// The words, in the block in which they were written. Clauses see the list of them.
pub(crate) struct FrozenWords {
    table: SyncTable,
}

impl Model for FrozenWords {
    ghost use Rattle.std.specs.Prelude.{◌≡◌, ℕ, List};
    ghost use Rattle.std.specs.Mem.Slots.{slots_items, slots_len, IsFull};

    ghost Value = { List ℕ };

    ghost view = { λ s. slots_items s.table.table.words };

    ghost invariant = { λ s. IsFull s.table.table.words × (slots_len s.table.table.slots ≡ 0) };
}

impl FrozenWords {
    pub(crate) fn new(table: Closed<(), Global>) -> FrozenWords
        requires { IsFull table.words × (slots_len table.slots ≡ 0) }
        ensures { result ≡ slots_items table.words }
    {
        FrozenWords {
            table: SyncTable::new(table),
        }
    }

    #[inline(always)]
    pub(crate) fn word(&self, i: usize) -> u64
        requires { i < length self.now }
        ensures { result ≡ slice_index self.now i }
    {
        self.table.get().word(i)
    }
}

impl Drop for FrozenWords {
    fn drop(self) {
        let FrozenWords { table } = self;
        table.into_table().free();
    }
}
