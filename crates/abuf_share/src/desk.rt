// A desk from which threads draw numbers.
ghost use Rattle.std.specs.Prelude.{◌≡◌, ◌<◌, ◌≤◌, [], IfOk};
ghost use Rattle.abuf_share.specs.Desk.{EachOnceIfWhole, HasTaken, MaySplit, holding, united, whole_view, with_less};
ghost use Rattle.abuf_share.specs.declared.desk.TheConstants.{MAX_NUMBERS};

use crate::rule::{
    CountStep, DeskRule, DeskSeat, Moved, TakeStep, TurnJoin, TurnSplit, TurnView, Words,
};
use abuf_num::NoMemory;
use atomic_table::Table;
use std::alloc::Global;
use std::marker::{Brand, Model};

/// The greatest limit of a desk: one number for each 64 of `MAX_PRIMITIVES` triangles.
pub const MAX_NUMBERS: u32 = 32768;

/// A counter that many threads draw numbers from by atomic steps, and the limit below which it hands them out. A `&Desk` may
/// be shared between threads.
#[derive(Drop)]
pub struct Desk {
    table: Table<(), TurnView, (), DeskRule, Global>,
    limit: u32,
}

impl Model for Desk {
    ghost use Rattle.std.specs.Prelude.{◌≡◌};
    ghost use Rattle.abuf_share.specs.Desk.{Stock};

    ghost Value = { Stock };

    ghost view = { λ d. record { table = d.table.shared.table_id; limit = d.limit } };

    ghost invariant = { λ d. (d.table.shared.table_id.words ≡ 1) × (d.table.shared.table_id.slots ≡ 0) };
}

/// The right to draw so many numbers from a desk, and the numbers drawn by it. It may be moved to another thread, and it may be
/// dropped. The endowments of all turns of a desk, which are their credits and the counts of their numbers, add up to at most
/// 2^60.
#[derive(Drop)]
pub struct Turn {
    seat: DeskSeat,
}

impl Model for Turn {
    ghost use Rattle.std.specs.Prelude.{◌≡◌, []};
    ghost use Rattle.abuf_share.specs.Desk.{TurnState};

    ghost Value = { TurnState };

    ghost view = { λ t. record { table = t.seat.table_id; view = t.seat.me.0 } };

    ghost invariant = { λ t. t.seat.me.1 ≡ [] };
}

fn split_at<N: Moved>(words: &Words, seat: &mut DeskSeat, _credit: u64) -> DeskSeat
    requires { MaySplit words.now.table_id seat.old N.credit }
    ensures left { (seat.new.table_id ≡ seat.old.table_id) × (seat.new.me ≡ (with_less N.credit seat.old.me.0, seat.old.me.1)) }
    ensures right { (result.table_id ≡ seat.old.table_id) × (result.me ≡ (holding N.credit [], [])) }
{
    words.split_seat::<TurnSplit<N>>(seat)
}

impl Desk {
    /// A desk of this limit, with a turn that has the whole credit of 2^60 and no numbers. It takes one small block;
    /// no call on the desk or a turn takes memory after it.
    pub fn start(alloc: Global, limit: u32) -> Result<(Desk, Turn), NoMemory>
        requires { limit ≤ MAX_NUMBERS }
        ensures { IfOk result (λ r. (r.0.limit ≡ limit) × (r.1.table ≡ r.0.table) × (r.1.view ≡ whole_view)) }
    {
        let (table, seat) = Table::of_words(alloc, &[0], &())?;
        Ok((Desk { table, limit }, Turn { seat }))
    }

    /// Draws the next number, which no other turn has and which is above each that this turn had. Returns `None` exactly if it
    /// is at or beyond the limit. A turn that has the whole endowment has the numbers from 0 on, each once.
    pub fn take(&self, turn: &mut Turn) -> Option<u32>
        requires desk { turn.old.table ≡ self.now.table }
        requires credit { 1 ≤ turn.old.view.credit }
        ensures table { turn.new.table ≡ turn.old.table }
        ensures number { HasTaken self.now.limit result turn.old.view turn.new.view }
        ensures each_once { EachOnceIfWhole turn.new.view }
    {
        let number = self
            .table
            .shared
            .fetch_add::<TakeStep>(&mut turn.seat, 0, 1);
        if number < self.limit as u64 {
            Some(number as u32)
        } else {
            None
        }
    }
}

impl Turn {
    /// Splits off a turn with this credit and no numbers.
    pub fn split(&mut self, desk: &Desk, credit: u64) -> Turn
        requires desk { self.old.table ≡ desk.now.table }
        requires credit { credit ≤ self.old.view.credit }
        ensures left { (self.new.table ≡ self.old.table) × (self.new.view ≡ with_less credit self.old.view) }
        ensures right { (result.table ≡ self.old.table) × (result.view ≡ holding credit []) }
    {
        let seat = split_at::<Brand>(&desk.table.shared, &mut self.seat, credit);
        Turn { seat }
    }

    /// Joins the other turn into this one: its credit and numbers are added.
    pub fn join(&mut self, desk: &Desk, other: Turn)
        requires desk { self.old.table ≡ desk.now.table }
        requires other { other.table ≡ desk.now.table }
        ensures table { self.new.table ≡ self.old.table }
        ensures view { self.new.view ≡ united self.old.view other.view }
        ensures each_once { EachOnceIfWhole self.new.view }
    {
        let Turn { seat } = other;
        let words = &desk.table.shared;
        words.join_seat::<TurnJoin>(&mut self.seat, seat);
        // One more load tells what the whole endowment means for the numbers.
        words.load::<CountStep>(&mut self.seat, 0);
    }
}
