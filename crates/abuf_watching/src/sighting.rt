// The last looks, once all is drawn.
ghost use Rattle.std.specs.Prelude.{◌≡◌, ℕ, ◌*◌, ◌<◌, ◌≤◌, ◌∷◌, [], length, IfOk, IsPermutation};
ghost use Rattle.std.specs.List.{AllZip};
ghost use Rattle.abuf_frame.specs.declared.view.Walk.{Walk};
ghost use Rattle.abuf_frame.specs.Draws.{pairs, payloads_at};
ghost use Rattle.abuf_frame.specs.Views.{IsSettled, IsWhole};
ghost use Rattle.abuf_picture.specs.Drawn.{found};
ghost use Rattle.abuf_picture.specs.Picture.{fragments};
ghost use Rattle.abuf_watching.specs.Looking.{Saw};
ghost use Rattle.abuf_watching.specs.Watching.{HasLooked, IsSight};

use crate::watch::Watch;
use abuf_frame::{Frame, Look, Pass};
use abuf_num::{List, NoMemory};
use abuf_resolve::laws::one_each_law;
use std::alloc::Global;

/// How many words a look left in a slice of this length.
fn found(look: Look, room: usize) -> usize
    ensures { result ≡ found look room }
{
    match look {
        Look::All { count } => count as usize,
        Look::More => room,
        Look::Unlinked { .. } => 0,
    }
}

/// The words of a pixel, by a look of the whole pass. There has to be room for all in the buffer.
fn look_last(
    alloc: Global,
    frame: &Frame,
    pass: &mut Pass,
    place: u32,
    out: &mut [u64],
) -> Result<List<u64>, NoMemory>
    requires frame { pass.old.frame ≡ frame.now }
    requires place { place < frame.now.pixels }
    requires whole { IsWhole pass.old.view }
    requires settled { IsSettled pass.old.view }
    ensures frame { pass.new.frame ≡ pass.old.frame }
    ensures room { length out.new ≡ length out.old }
    ensures saw { (w : Walk) × Saw (w ∷ []) pass.old.view pass.new.view }
    ensures seen { pass.new.view.seen ≡ pass.old.view.seen }
    ensures words { IfOk result (λ words. length (payloads_at place (pairs pass.old.view.entries)) ≤ length out.old
        → IsPermutation words (payloads_at place (pairs pass.old.view.entries))) }
{
    let look = pass.look(frame, place, out);
    let count = found(look, out.len());
    let words = Vec::from_slice(alloc, &out[..count])?;
    Ok(List::from_vec(words))
}

/// The words of each pixel at the places, once all others are joined into the pass. An error means that memory ran out.
pub(crate) fn look_at_all(
    alloc: Global,
    watch: &Watch,
    frame: &Frame,
    pass: &mut Pass,
) -> Result<List<List<u64>>, NoMemory>
    requires frame { pass.old.frame ≡ frame.now }
    requires pixels { watch.now.target.region.w * watch.now.target.region.h ≤ frame.now.pixels }
    requires whole { IsWhole pass.old.view }
    requires settled { IsSettled pass.old.view }
    ensures frame { pass.new.frame ≡ pass.old.frame }
    ensures looked { HasLooked pass.old.view pass.new.view }
    ensures words { IfOk result (AllZip
        (IsSight (fragments watch.now.primitives.triangles.now watch.now.target.pattern watch.now.target.region) pass.old.view.entries)
        watch.now.places.now) }
{
    pass.count(frame);
    let triangles = watch.primitives.triangles;
    let mut out = vec![in alloc; 0; triangles.len()]?;
    let mut words = List::new(alloc);
    for place in watch.places {
        one_each_law(triangles, watch.target.pattern, watch.target.region, *place);
        let seen = look_last(alloc, frame, pass, *place, &mut out)?;
        words.push(seen)?;
    }
    Ok(words)
}
