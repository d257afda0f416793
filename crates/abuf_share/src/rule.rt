// What a turn knows, and the steps on the desk's one word.
use atomic_table::{Join, Play, Seat, Shared, Split, TableRule};
use std::marker::{Brand, PhantomData};

/// What a turn knows. No value of this type is ever made: a clause reads the array as a list.
pub struct TurnView {
    /// How many numbers it may still draw.
    pub credit: u64,
    /// The numbers that it drew.
    pub drawn: [u64; 0],
}

/// The rule of a desk.
pub(crate) struct DeskRule;

impl TableRule<(), TurnView, ()> for DeskRule {
    ghost use Rattle.abuf_share.specs.Desk.{Lawful, whole_view};

    ghost holds = { λ _. Lawful };

    ghost first = { λ _. whole_view };
}

/// How much credit moves to the turn that is split off.
pub(crate) trait Moved {
    ghost use Rattle.std.specs.Prelude.{ℕ};

    ghost credit: { ℕ };
}

impl Moved for Brand {
    ghost credit = { 0 };
}

/// The split that moves this credit.
pub(crate) struct TurnSplit<N> {
    moved: PhantomData<N>,
}

impl<N: Moved> Split<TurnView> for TurnSplit<N> {
    ghost use Rattle.abuf_share.specs.Desk.{holding, with_less};
    ghost use Rattle.std.specs.Prelude.{[]};

    ghost left = { λ v. with_less N.credit v };

    ghost right = { λ v. holding N.credit [] };
}

/// The join that adds credits and numbers.
pub(crate) struct TurnJoin;

impl Join<TurnView> for TurnJoin {
    ghost use Rattle.abuf_share.specs.Desk.{holding, united};
    ghost use Rattle.std.specs.Prelude.{[]};

    ghost both = { λ v w. united v w };

    ghost spent = { holding 0 [] };
}

/// The addition that draws a number.
pub(crate) struct TakeStep;

impl Play<(), TurnView> for TakeStep {
    ghost use Rattle.abuf_share.specs.Desk.{Shown, drawing};
    ghost use Rattle.std.specs.Prelude.{◌≡◌, []};

    ghost then = { λ _ me found now. (now ≡ (drawing found me.0, [])) × Shown found me.0 };
}

/// The load that a turn makes after a join.
pub(crate) struct CountStep;

impl Play<(), TurnView> for CountStep {
    ghost use Rattle.abuf_share.specs.Desk.{EachOnceIfWhole};
    ghost use Rattle.std.specs.Prelude.{◌≡◌};

    ghost then = { λ _ me found now. (now ≡ me) × EachOnceIfWhole me.0 };
}

pub(crate) type Words = Shared<(), TurnView, (), DeskRule>;

/// A turn's seat at the desk's table.
pub(crate) type DeskSeat = Seat<(), TurnView>;
