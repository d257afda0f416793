// A frame for threads of the caller's own.
ghost use Rattle.std.specs.Prelude.{◌≡◌, ℕ, ◌+◌, ◌<◌, ◌≤◌, ◌++◌, IfOk, length, All, IsPermutation};
ghost use Rattle.abuf_num.specs.declared.limits.TheConstants.{MAX_NODES, MAX_PIXELS};
ghost use Rattle.abuf_frame.specs.Closing.{list_at};
ghost use Rattle.abuf_frame.specs.Draws.{payloads_at};

use abuf_frame::{Closed, Frame};
use abuf_num::{List, NoMemory};
use std::alloc::Global;
use std::thread::{Threads, join_mut};

/// The closed frame of so many pixels into which two threads drew items, each a pixel and a payload: one thread the front ones,
/// and the other the back ones, by a pass that is split off for it. The frame has a node for each item.
pub fn draw_at_once<R: Threads>(
    rt: &R,
    alloc: Global,
    pixels: u32,
    front: &[(u32, u64)],
    back: &[(u32, u64)],
) -> Result<Closed, NoMemory>
    requires pixels { (1 ≤ pixels) × (pixels ≤ MAX_PIXELS) }
    requires items { length front.now + length back.now ≤ MAX_NODES }
    requires within { All (λ x. x.0 < pixels) front.now × All (λ x. x.0 < pixels) back.now }
    ensures pixels { IfOk result (λ closed. closed.pixels ≡ pixels) }
    ensures fragments { IfOk result (λ closed. closed.fragments ≡ length front.now + length back.now) }
    ensures lists { IfOk result (λ closed. (p : ℕ) → p < pixels → IsPermutation (list_at closed p) (payloads_at p (front.now ++ back.now))) }
{
    let nodes = (front.len() + back.len()).max(1) as u32;
    let (frame, mut left) = Frame::start(alloc, pixels, nodes)?;
    let mut right = left.split(&frame, back.len() as u64);
    join_mut(
        rt,
        &mut || left.insert_all(&frame, front),
        &mut || right.insert_all(&frame, back),
    );
    left.join(&frame, right);
    Ok(frame.close(left))
}

/// The payloads of each pixel's list, in the order of the walk from its head.
pub fn lists_of(alloc: Global, closed: &Closed) -> Result<List<List<u64>>, NoMemory>
    ensures { IfOk result (λ lists. lists ≡ closed.now.lists) }
{
    let mut lists = List::new(alloc);
    let mut reader = closed.reader(alloc);
    for pixel in 0..closed.pixels() {
        reader.read(pixel)?;
        let list = reader.list().to_vec(alloc)?;
        lists.push(List::from_vec(list))?;
    }
    Ok(lists)
}
