// The frame: worked rows of passes, looks and lists.
ghost use Rattle.std.specs.Prelude.{◌≡◌};

use abuf_frame::{Closed, Frame, Full, Look};
use abuf_num::NoMemory;
use std::alloc::Global;
use std::test::Fail;
use std::thread::{join_mut, map_indices};

/// One step of one of two passes on one pixel: a capital letter is the first pass's claim, fill, swap or link with payload 7, a
/// small one the second's with payload 9.
macro_rules! step {
    (C, $rt:ident, $frame:ident, $nodes:literal, $a:ident, $m:ident, $x:ident, $b:ident, $n:ident, $y:ident) => {
        $m = $a.claim(&$frame, 1);
    };
    (F, $rt:ident, $frame:ident, $nodes:literal, $a:ident, $m:ident, $x:ident, $b:ident, $n:ident, $y:ident) => {
        assert!($rt; $m < $nodes);
        $a.fill(&$frame, $m, 0, 7);
    };
    (S, $rt:ident, $frame:ident, $nodes:literal, $a:ident, $m:ident, $x:ident, $b:ident, $n:ident, $y:ident) => {
        $x = $a.swap_head(&$frame, $m, 0);
    };
    (L, $rt:ident, $frame:ident, $nodes:literal, $a:ident, $m:ident, $x:ident, $b:ident, $n:ident, $y:ident) => {
        $a.link(&$frame, $m, $x);
    };
    (c, $rt:ident, $frame:ident, $nodes:literal, $a:ident, $m:ident, $x:ident, $b:ident, $n:ident, $y:ident) => {
        $n = $b.claim(&$frame, 1);
    };
    (f, $rt:ident, $frame:ident, $nodes:literal, $a:ident, $m:ident, $x:ident, $b:ident, $n:ident, $y:ident) => {
        assert!($rt; $n < $nodes);
        $b.fill(&$frame, $n, 0, 9);
    };
    (s, $rt:ident, $frame:ident, $nodes:literal, $a:ident, $m:ident, $x:ident, $b:ident, $n:ident, $y:ident) => {
        $y = $b.swap_head(&$frame, $n, 0);
    };
    (l, $rt:ident, $frame:ident, $nodes:literal, $a:ident, $m:ident, $x:ident, $b:ident, $n:ident, $y:ident) => {
        $b.link(&$frame, $n, $y);
    };
}

/// The closed frame of one pixel and so many nodes after these steps.
macro_rules! closed_after {
    ($rt:ident, $nodes:literal, $($step:ident)+) => {{
        let (frame, mut a) = Frame::start($rt.alloc(), 1, $nodes)?;
        let mut b = a.split(&frame, 10);
        let mut m = 0;
        let mut x = 0;
        let mut n = 0;
        let mut y = 0;
        $(step!($step, $rt, frame, $nodes, a, m, x, b, n, y);)+
        a.join(&frame, b);
        assert!($rt; a.settled());
        frame.close(a)
    }};
}

#[test]
fn one_after_the_other(rt: HostRuntime) -> Result<(), Fail> {
    let closed = closed_after!(rt, 2, C F S L c f s l);
    assert!(rt; closed.list(rt.alloc(), 0)?.as_slice() == [9, 7].as_slice());
    Ok(())
}

#[test]
fn step_by_step_in_turn(rt: HostRuntime) -> Result<(), Fail> {
    let closed = closed_after!(rt, 2, C c F f S s L l);
    assert!(rt; closed.list(rt.alloc(), 0)?.as_slice() == [9, 7].as_slice());
    Ok(())
}

#[test]
fn links_crossed(rt: HostRuntime) -> Result<(), Fail> {
    let closed = closed_after!(rt, 2, C c F f S s l L);
    assert!(rt; closed.list(rt.alloc(), 0)?.as_slice() == [9, 7].as_slice());
    Ok(())
}

#[test]
fn the_later_number_swapped_first(rt: HostRuntime) -> Result<(), Fail> {
    let closed = closed_after!(rt, 2, C c f s l F S L);
    assert!(rt; closed.list(rt.alloc(), 0)?.as_slice() == [7, 9].as_slice());
    Ok(())
}

#[test]
fn all_steps_crossed(rt: HostRuntime) -> Result<(), Fail> {
    let closed = closed_after!(rt, 2, c C F f s S l L);
    assert!(rt; closed.list(rt.alloc(), 0)?.as_slice() == [7, 9].as_slice());
    Ok(())
}

#[test]
fn two_claims_of_one_node(rt: HostRuntime) -> Result<(), Fail> {
    let closed = closed_after!(rt, 1, C c F S L);
    let Some(Full { fragments, nodes }) = closed.full() else {
        panic!(rt; "not full")
    };
    assert!(rt; fragments == 2 && nodes == 1);
    Ok(())
}

#[test]
fn a_look_between_swap_and_link(rt: HostRuntime) -> Result<(), Fail> {
    let alloc = rt.alloc();
    let (frame, mut a) = Frame::start(alloc, 1, 2)?;
    let mut b = a.split(&frame, 10);
    let mut out = [0; 2];
    let no_room_needed = b.look(&frame, 0, &mut []);
    let first = a.claim(&frame, 1);
    assert!(rt; first == 0);
    a.fill(&frame, first, 0, 7);
    let end = a.swap_head(&frame, first, 0);
    let second = b.claim(&frame, 1);
    assert!(rt; second == 1);
    b.fill(&frame, second, 0, 9);
    let old = b.swap_head(&frame, second, 0);
    b.link(&frame, second, old);
    let no_room = b.look(&frame, 0, &mut []);
    let before = b.look(&frame, 0, &mut out);
    let written = out;
    a.link(&frame, first, end);
    let after = b.look(&frame, 0, &mut out);
    a.join(&frame, b);
    let closed = frame.close(a);
    assert!(rt; end == 0 && old == 1);
    assert!(rt;
        matches!(&no_room_needed, Look::All { count: 0 }) && matches!(&no_room, Look::More)
    );
    assert!(rt; matches!(&before, Look::Unlinked { node: 0 }) && written == [9, 0]);
    assert!(rt; matches!(&after, Look::All { count: 2 }) && out == [9, 7]);
    assert!(rt; closed.list(alloc, 0)?.as_slice() == [9, 7].as_slice() && closed.full().is_none());
    Ok(())
}

#[test]
fn looks_of_the_whole_pass(rt: HostRuntime) -> Result<(), Fail> {
    let alloc = rt.alloc();
    let (frame, mut pass) = Frame::start(alloc, 1, 3)?;
    pass.insert_all(&frame, &[(0, 5), (0, 6), (0, 7)]);
    let mut two = [0; 2];
    let with_two_places = pass.look(&frame, 0, &mut two);
    let mut three = [0; 3];
    let with_three_places = pass.look(&frame, 0, &mut three);
    let closed = frame.close(pass);
    assert!(rt; matches!(&with_two_places, Look::More) && two == [7, 6]);
    assert!(rt; matches!(&with_three_places, Look::All { count: 3 }) && three == [7, 6, 5]);
    assert!(rt; closed.list(alloc, 0)?.as_slice() == [7, 6, 5].as_slice());
    Ok(())
}

#[test]
fn one_insert_and_two_at_once(rt: HostRuntime) -> Result<(), Fail> {
    let alloc = rt.alloc();
    let (frame, mut pass) = Frame::start(alloc, 2, 3)?;
    pass.insert(&frame, 0, 5);
    pass.insert_all(&frame, &[(1, 6), (0, 7)]);
    let closed = frame.close(pass);
    assert!(rt; closed.pixels() == 2 && closed.fragments() == 3 && closed.full().is_none());
    assert!(rt; closed.list(alloc, 0)?.as_slice() == [7, 5].as_slice());
    assert!(rt; closed.list(alloc, 1)?.as_slice() == [6].as_slice());
    Ok(())
}

#[test]
fn too_few_nodes(rt: HostRuntime) -> Result<(), Fail> {
    let (frame, mut pass) = Frame::start(rt.alloc(), 2, 2)?;
    pass.insert(&frame, 0, 5);
    pass.insert_all(&frame, &[(1, 6), (0, 7)]);
    let closed = frame.close(pass);
    let Some(Full { fragments, nodes }) = closed.full() else {
        panic!(rt; "not full")
    };
    assert!(rt; fragments == 3 && nodes == 2);
    Ok(())
}

#[test]
fn nothing_drawn(rt: HostRuntime) -> Result<(), Fail> {
    let alloc = rt.alloc();
    let (frame, pass) = Frame::start(alloc, 1, 1)?;
    let closed = frame.close(pass);
    assert!(rt; closed.fragments() == 0 && closed.full().is_none());
    assert!(rt; closed.list(alloc, 0)?.as_slice().is_empty());
    Ok(())
}

#[test]
fn three_numbers_of_one_node(rt: HostRuntime) -> Result<(), Fail> {
    let (frame, mut pass) = Frame::start(rt.alloc(), 1, 1)?;
    let number = pass.claim(&frame, 3);
    assert!(rt; number == 0);
    pass.fill(&frame, 0, 0, 8);
    let old = pass.swap_head(&frame, 0, 0);
    pass.link(&frame, 0, old);
    let closed = frame.close(pass);
    let Some(Full { fragments, nodes }) = closed.full() else {
        panic!(rt; "not full")
    };
    assert!(rt; old == 0 && fragments == 3 && nodes == 1);
    Ok(())
}

/// A value that may be moved to another thread, and one that may be shared.
fn moved<T: Send>(value: T) -> T
    ensures { result ≡ value }
{
    value
}

fn shared<T: Sync>(_value: &T) {}

#[test]
fn a_pass_and_its_part(rt: HostRuntime) -> Result<(), Fail> {
    let alloc = rt.alloc();
    let (frame, mut a) = Frame::start(alloc, 1, 4)?;
    shared(&frame);
    a.insert(&frame, 0, 5);
    let mut b = moved(a.split(&frame, 10));
    let parted = !a.whole() && b.credit() == 10;
    let seen = b.count(&frame);
    b.insert(&frame, 0, 6);
    a.join(&frame, b);
    let joined = a.whole() && a.settled();
    let all = a.count(&frame);
    let closed = frame.close(a);
    shared(&closed);
    assert!(rt; parted && seen == 1 && joined && all == 2);
    assert!(rt; closed.list(alloc, 0)?.as_slice() == [6, 5].as_slice());
    Ok(())
}

#[test]
fn two_threads_insert_at_once(rt: HostRuntime) -> Result<(), Fail> {
    let alloc = rt.alloc();
    let (frame, mut a) = Frame::start(alloc, 1, 2)?;
    let mut b = a.split(&frame, 1);
    join_mut(
        &rt,
        &mut || a.insert(&frame, 0, 7),
        &mut || b.insert(&frame, 0, 9),
    );
    a.join(&frame, b);
    let closed = frame.close(a);
    let list = closed.list(alloc, 0)?;
    let is_either = list.as_slice() == [9, 7].as_slice() || list.as_slice() == [7, 9].as_slice();
    assert!(rt; closed.fragments() == 2 && is_either);
    Ok(())
}

#[test]
fn one_list_after_another(rt: HostRuntime) -> Result<(), Fail> {
    let alloc = rt.alloc();
    let (frame, mut pass) = Frame::start(alloc, 11, 16)?;
    // The payload's tens are the pixel.
    pass.insert_all(
        &frame,
        &[
            (0, 1),
            (7, 71),
            (2, 21),
            (9, 91),
            (3, 31),
            (0, 2),
            (2, 22),
            (8, 81),
        ],
    );
    pass.insert_all(
        &frame,
        &[
            (9, 92),
            (2, 23),
            (0, 3),
            (2, 24),
            (9, 93),
            (7, 72),
            (2, 25),
            (9, 94),
        ],
    );
    let closed = frame.close(pass);
    let mut reader = closed.reader(alloc);
    assert!(rt; reader.list().is_empty());
    reader.read(0)?;
    assert!(rt; reader.list() == [3, 2, 1].as_slice());
    reader.read(1)?;
    assert!(rt; reader.list().is_empty());
    reader.read(2)?;
    assert!(rt; reader.list() == [25, 24, 23, 22, 21].as_slice());
    reader.read(7)?;
    assert!(rt; reader.list() == [72, 71].as_slice());
    reader.read(8)?;
    assert!(rt; reader.list() == [81].as_slice());
    reader.read(10)?;
    assert!(rt; reader.list().is_empty());
    reader.read(9)?;
    assert!(rt; reader.list() == [94, 93, 92, 91].as_slice());
    reader.read(3)?;
    assert!(rt; reader.list() == [31].as_slice());
    Ok(())
}

/// The payloads of a column's two pixels in turn, then of the next column's, where two rows have this width.
fn read_columns(alloc: Global, closed: &Closed, width: u32) -> Result<Vec<u64>, NoMemory> {
    let mut reader = closed.row_reader(alloc, width);
    let mut payloads = Vec::new(alloc);
    for column in 0..width {
        if column < closed.pixels() {
            reader.read(column)?;
            payloads.extend_from_slice(reader.list())?;
        }
        let below = column.saturating_add(width);
        if below < closed.pixels() {
            reader.read(below)?;
            payloads.extend_from_slice(reader.list())?;
        }
    }
    Ok(payloads)
}

#[test]
fn lists_of_two_rows_in_turn(rt: HostRuntime) -> Result<(), Fail> {
    let alloc = rt.alloc();
    let (frame, mut pass) = Frame::start(alloc, 6, 8)?;
    pass.insert_all(
        &frame,
        &[
            (0, 1),
            (3, 30),
            (1, 11),
            (4, 40),
            (2, 21),
            (5, 50),
            (0, 2),
            (5, 51),
        ],
    );
    let closed = frame.close(pass);
    assert!(rt;
        read_columns(alloc, &closed, 3)?.as_slice() == [2, 1, 30, 11, 40, 21, 51, 50].as_slice()
    );
    // The lower row is shorter, then there is none, and then it lies past all numbers.
    assert!(rt;
        read_columns(alloc, &closed, 4)?.as_slice() == [2, 1, 40, 11, 51, 50, 21, 30].as_slice()
    );
    assert!(rt;
        read_columns(alloc, &closed, 6)?.as_slice() == [2, 1, 11, 21, 30, 40, 51, 50].as_slice()
    );
    let mut reader = closed.row_reader(alloc, u32::MAX);
    reader.read(5)?;
    assert!(rt; reader.list() == [51, 50].as_slice());
    Ok(())
}

#[test]
fn a_list_on_each_of_two_threads(rt: HostRuntime) -> Result<(), Fail> {
    let alloc = rt.alloc();
    let (frame, mut pass) = Frame::start(alloc, 2, 70)?;
    pass.insert_all(&frame, &[(0, 5), (1, 6), (0, 7)]);
    let closed = frame.close(pass);
    let lists = map_indices(&rt, alloc, 2, &|pixel| closed.list(alloc, pixel as u32))?;
    let mut lists = lists.into_iter();
    let first = lists.next().ok_or("no list")??;
    let second = lists.next().ok_or("no list")??;
    assert!(rt; first.as_slice() == [7, 5].as_slice() && second.as_slice() == [6].as_slice());
    assert!(rt; lists.next().is_none());
    Ok(())
}

#[test]
fn a_larger_pool(rt: HostRuntime) -> Result<(), Fail> {
    let alloc = rt.alloc();
    let (frame, mut pass) = Frame::start(alloc, 1, 2)?;
    pass.insert_all(&frame, &[(0, 5), (0, 6)]);
    let closed = frame.close(pass).in_larger_pool(8388608);
    assert!(rt; closed.fragments() == 2 && closed.full().is_none());
    assert!(rt; closed.list(alloc, 0)?.as_slice() == [6, 5].as_slice());
    Ok(())
}

#[test]
fn a_full_frame_reopened(rt: HostRuntime) -> Result<(), Fail> {
    let alloc = rt.alloc();
    let (frame, mut pass) = Frame::start(alloc, 1, 2)?;
    pass.insert(&frame, 0, 1);
    pass.insert(&frame, 0, 2);
    pass.insert(&frame, 0, 3);
    let closed = frame.close(pass);
    let Some(Full { fragments, nodes }) = closed.full() else {
        panic!(rt; "not full")
    };
    assert!(rt; fragments == 3 && nodes == 2);
    let (again, mut anew) = closed.reopen(alloc)?;
    anew.insert(&again, 0, 4);
    let closed = again.close(anew);
    assert!(rt; closed.full().is_none());
    assert!(rt; closed.list(alloc, 0)?.as_slice() == [4].as_slice());
    Ok(())
}
