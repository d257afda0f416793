// The kinds of step. Each is one operation on one word.
ghost use Rattle.std.specs.Prelude.{◌≡◌, ℕ, ◌+◌, ◌%◌, ◌^◌, ◌<◌, ◌≤◌, ◌*◌, ◌-◌, []};
ghost use Rattle.abuf_num.specs.declared.limits.TheConstants.{MAX_NODES, MAX_PIXELS};
ghost use Rattle.abuf_frame.specs.Seats.{HasStepped, HasView, MaySplit, MayStep, MayStore};
ghost use Rattle.abuf_frame.specs.Steps.{split_left, split_right};
ghost use Rattle.abuf_frame.specs.Walks.{LastHasNoted};
ghost use Rattle.abuf_frame.specs.Words.{head_word, next_word, payload_word};

use crate::rule::FrameRule;
use crate::view::{FrameSize, View};
use atomic_table::{Join, Play, Seat, Shared, Split};
use std::marker::{Brand, PhantomData};

/// The words of a frame's table, as they are shared.
pub(crate) type Words = Shared<(), View, FrameSize, FrameRule>;

/// The seat of a pass at a frame's table.
pub(crate) type FrameSeat = Seat<(), View>;

/// What a step leads to: the view after it, and what it shows of the number that it finds.
pub(crate) trait Aim {
    ghost use Rattle.std.specs.Prelude.{ℕ};
    ghost use Rattle.abuf_frame.specs.declared.view.View.{View};

    ghost after: { ℕ → View };

    ghost shows: { ℕ → Type 0 };
}

impl Aim for Brand {
    ghost use Rattle.abuf_frame.specs.Views.{whole_view};

    ghost after = { λ _. whole_view };

    ghost shows = { λ _. Unit {0} };
}

/// The step that leads there.
pub(crate) struct Aimed<N> {
    aim: PhantomData<N>,
}

impl<N: Aim> Play<(), View> for Aimed<N> {
    ghost use Rattle.std.specs.Prelude.{◌≡◌, []};

    ghost then = { λ _ _ found now. (now ≡ (N.after found, [])) × N.shows found };
}

/// A claim: an addition to the counter.
pub(crate) fn claim_at<N: Aim>(words: &Words, seat: &mut FrameSeat, count: u32) -> u64
    requires { MayStep words.now.key words.now.table_id seat.old 0 (λ n. (n + count) % 2 ^ 64) N.after N.shows }
    ensures { HasStepped seat.old seat.new (N.after result) (N.shows result) }
{
    words.fetch_add::<Aimed<N>>(seat, 0, count as u64)
}

/// A fill: a store of the payload of a node.
pub(crate) fn fill_at<N: Aim>(
    words: &Words,
    seat: &mut FrameSeat,
    pixels: u32,
    number: u64,
    _pixel: u32,
    payload: u64,
)
    requires sized { (number < MAX_NODES) × (pixels ≤ MAX_PIXELS) }
    requires step { MayStore words.now.key words.now.table_id seat.old (payload_word pixels number) payload (N.after payload) (N.shows payload) }
    ensures { HasStepped seat.old seat.new (N.after payload) (N.shows payload) }
{
    words.store::<Aimed<N>>(seat, 1 + pixels as usize + 2 * number as usize, payload)
}

/// A swap: an exchange of the head of a pixel.
pub(crate) fn swap_at<N: Aim>(words: &Words, seat: &mut FrameSeat, number: u64, pixel: u32) -> u64
    requires sized { number < MAX_NODES }
    requires step { MayStep words.now.key words.now.table_id seat.old (head_word pixel) (λ _. number + 1) N.after N.shows }
    ensures { HasStepped seat.old seat.new (N.after result) (N.shows result) }
{
    words.swap::<Aimed<N>>(seat, 1 + pixel as usize, number + 1)
}

/// A link: a store of the next of a node.
pub(crate) fn link_at<N: Aim>(
    words: &Words,
    seat: &mut FrameSeat,
    pixels: u32,
    number: u64,
    old: u64,
)
    requires sized { (number < MAX_NODES) × (pixels ≤ MAX_PIXELS) }
    requires step { MayStore words.now.key words.now.table_id seat.old (next_word pixels number) old (N.after old) (N.shows old) }
    ensures { HasStepped seat.old seat.new (N.after old) (N.shows old) }
{
    words.store::<Aimed<N>>(seat, 2 + pixels as usize + 2 * number as usize, old)
}

/// How much credit a split moves.
pub(crate) trait Moved {
    ghost use Rattle.std.specs.Prelude.{ℕ};

    ghost credit: { ℕ };
}

impl Moved for Brand {
    ghost credit = { 0 };
}

/// The split that moves this credit.
pub(crate) struct ViewSplit<N> {
    moved: PhantomData<N>,
}

impl<N: Moved> Split<View> for ViewSplit<N> {
    ghost use Rattle.abuf_frame.specs.Steps.{split_left, split_right};

    ghost left = { λ v. split_left N.credit v };

    ghost right = { λ v. split_right N.credit v };
}

/// The join that adds credits and unites entries and walks.
pub(crate) struct ViewJoin;

impl Join<View> for ViewJoin {
    ghost use Rattle.abuf_frame.specs.Steps.{united};
    ghost use Rattle.abuf_frame.specs.Views.{spent_view};

    ghost both = { united };

    ghost spent = { spent_view };
}

/// A split: a load of the counter.
pub(crate) fn split_at<N: Moved>(words: &Words, seat: &mut FrameSeat, _credit: u64) -> FrameSeat
    requires { MaySplit words.now.key words.now.table_id seat.old (split_left N.credit seat.old.me.0) (split_right N.credit seat.old.me.0) }
    ensures left { HasView seat.old seat.new (split_left N.credit seat.old.me.0) }
    ensures right { (result.table_id ≡ seat.old.table_id) × (result.me ≡ (split_right N.credit seat.old.me.0, [])) }
{
    words.split_seat::<ViewSplit<N>>(seat)
}

/// A load of the counter.
pub(crate) fn count_at<N: Aim>(words: &Words, seat: &mut FrameSeat) -> u64
    requires { MayStep words.now.key words.now.table_id seat.old 0 (λ n. n) N.after N.shows }
    ensures { HasStepped seat.old seat.new (N.after result) (N.shows result) }
{
    words.load::<Aimed<N>>(seat, 0)
}

/// A look at a head: a load.
pub(crate) fn look_head_at<N: Aim>(words: &Words, seat: &mut FrameSeat, pixel: u32) -> u64
    requires { MayStep words.now.key words.now.table_id seat.old (head_word pixel) (λ n. n) N.after N.shows }
    ensures { HasStepped seat.old seat.new (N.after result) (N.shows result) }
{
    words.load::<Aimed<N>>(seat, 1 + pixel as usize)
}

/// A look at the payload of the node to which the word `at` refers: a load.
pub(crate) fn look_payload_at<N: Aim>(
    words: &Words,
    seat: &mut FrameSeat,
    pixels: u32,
    at: u64,
) -> u64
    requires sized { (1 ≤ at) × (at ≤ MAX_NODES) × (pixels ≤ MAX_PIXELS) }
    requires step { MayStep words.now.key words.now.table_id seat.old (payload_word pixels (at - 1)) (λ n. n) N.after N.shows }
    ensures { HasStepped seat.old seat.new (N.after result) (N.shows result) }
{
    words.load::<Aimed<N>>(seat, 1 + pixels as usize + 2 * (at - 1) as usize)
}

/// A look at the next of that node: a load, which is made only once the payload there is noted.
pub(crate) fn look_next_at<N: Aim>(words: &Words, seat: &mut FrameSeat, pixels: u32, at: u64) -> u64
    requires noted { LastHasNoted seat.old.me.0.walks }
    requires sized { (1 ≤ at) × (at ≤ MAX_NODES) × (pixels ≤ MAX_PIXELS) }
    requires step { MayStep words.now.key words.now.table_id seat.old (next_word pixels (at - 1)) (λ n. n) N.after N.shows }
    ensures { HasStepped seat.old seat.new (N.after result) (N.shows result) }
{
    words.load::<Aimed<N>>(seat, 2 + pixels as usize + 2 * (at - 1) as usize)
}
