// A look at a list while others draw.
ghost use Rattle.std.specs.Prelude.{◌≡◌, ℕ, ◌+◌, ◌*◌, ◌<◌, ◌≤◌, ◌-◌, ◌≢◌, ◌^◌, IsTrue, true, [], length, List};
ghost use Rattle.abuf_frame.specs.Look.{FindsList, Looked};
ghost use Rattle.abuf_frame.specs.Views.{IsSettled, IsWhole};
ghost use Rattle.abuf_frame.specs.Walks.{with_walk};
ghost use Rattle.abuf_frame.specs.Words.{Sized, mark};
ghost use Rattle.abuf_frame.specs.declared.look.Look.TheVariants.{Unlinked};
ghost use Rattle.abuf_frame.specs.declared.view.Walk.{Walk};

use crate::steps::{FrameSeat, Words, look_head_at, look_next_at, look_payload_at};
use std::marker::Brand;

/// What a look found.
#[derive(Drop)]
pub enum Look {
    /// The walk reached the end: the list has `count` payloads, which stand first in the slice.
    All { count: u32 },
    /// The walk met a node when the slice was full of the first payloads of the list.
    More,
    /// The slice had room, and the next of this node was not stored yet. The payloads of the nodes before it stand first in
    /// the slice.
    Unlinked { node: u32 },
}

pub(crate) fn look_along(
    words: &Words,
    seat: &mut FrameSeat,
    pixels: u32,
    nodes: u32,
    pixel: u32,
    out: &mut [u64],
) -> Look
    requires table { (seat.old.table_id ≡ words.now.table_id) × (words.now.table_id.words ≡ 1 + pixels + 2 * nodes) × (seat.old.me.1 ≡ []) }
    requires key { (words.now.key ≡ record { pixels = pixels; nodes = nodes }) × Sized pixels nodes × (pixel < pixels) }
    ensures seat { (seat.new.table_id ≡ seat.old.table_id) × (seat.new.id ≡ seat.old.id) }
    ensures walk { (w : Walk) × (seat.new.me ≡ (with_walk w seat.old.me.0, [])) × Looked pixel seat.old.me.0 out.old out.new result w }
    ensures linked { IsWhole seat.old.me.0 → IsSettled seat.old.me.0 → (n : ℕ) → result ≢ Unlinked n }
    ensures list { FindsList pixel seat.old.me.0 result out.new }
{
    let mut at = look_head_at::<Brand>(words, seat, pixel);
    let mut count = 0;
    while at != 0 {
        if count == out.len() {
            return Look::More;
        }
        let payload = look_payload_at::<Brand>(words, seat, pixels, at);
        let next = look_next_at::<Brand>(words, seat, pixels, at);
        if next == u64::MAX {
            return Look::Unlinked {
                node: (at - 1) as u32,
            };
        }
        out[count] = payload;
        count += 1;
        at = next;
    }
    Look::All {
        count: count as u32,
    }
}
