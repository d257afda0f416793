// The looks of a watcher while others draw.
ghost use Rattle.std.specs.Prelude.{◌≡◌, ℕ, ◌+◌, ◌<◌, ◌≤◌, ◌^◌, length, All};
ghost use Rattle.abuf_frame.specs.declared.view.Walk.{Walk};
ghost use Rattle.abuf_watching.specs.Looking.{LooksAround, LooksOnce};
ghost use Rattle.abuf_watching.specs.declared.looking.TheConstants.{ROOM};

use crate::looks::Looks;
use crate::signal::Signal;
use abuf_frame::{Frame, Look, Pass};

/// How many payloads a look has room for.
pub(crate) const ROOM: usize = 8;

/// How many looks a watcher makes at most, so that it ends whatever the drawers do.
const MAX_LOOKS: u64 = 1 << 32;

/// Counts, looks at one pixel, and tallies the look.
fn look_once(frame: &Frame, pass: &mut Pass, place: u32, out: &mut [u64], looks: &mut Looks)
    requires frame { pass.old.frame ≡ frame.now }
    requires place { place < frame.now.pixels }
    requires few { looks.old.whole + looks.old.unlinked + looks.old.more < 2 ^ 63 }
    ensures frame { pass.new.frame ≡ pass.old.frame }
    ensures room { length out.new ≡ length out.old }
    ensures look { (w : Walk) × LooksOnce (length out.old) place w pass.old.view pass.new.view looks.old looks.new }
{
    looks.last = pass.count(frame);
    match pass.look(frame, place, out) {
        Look::All { .. } => looks.whole += 1,
        Look::More => looks.more += 1,
        Look::Unlinked { .. } => looks.unlinked += 1,
    }
}

/// Looks at the pixels at these places in turn, over and over, until the drawing has ended.
pub(crate) fn look_around(frame: &Frame, pass: &mut Pass, places: &[u32], signal: &Signal) -> Looks
    requires frame { pass.old.frame ≡ frame.now }
    requires places { All (λ p. p < frame.now.pixels) places.now }
    requires some { 1 ≤ length places.now }
    ensures frame { pass.new.frame ≡ pass.old.frame }
    ensures looks { LooksAround ROOM places.now pass.old.view pass.new.view result }
{
    let first = pass.count(frame);
    signal.begin();
    let mut looks = Looks {
        first,
        last: first,
        whole: 0,
        unlinked: 0,
        more: 0,
    };
    let mut out = [0; ROOM];
    for turn in 0..MAX_LOOKS {
        if signal.has_ended() {
            break;
        }
        let place = places[(turn % places.len() as u64) as usize];
        look_once(frame, pass, place, &mut out, &mut looks);
    }
    looks
}
