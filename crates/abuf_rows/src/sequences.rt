// Sequences of images: a path file, one image after another, and where they end early.
use crate::command::{
    CommandOutcome, Outside, all_answer, carry_out, carry_out_over, images, is_answer, words_answer,
};
use crate::outside::{bytewise, cut};
use crate::table::{column, is_case};
use abuf_num::List;
use std::alloc::Global;
use std::test::Fail;
use std::thread::Threads;

const SMALL: &str = "sequence p --size 4x4 --nodes 16";

/// An image for each shot, up to the first that is past the pool.
#[test]
fn images_of_shots(rt: HostRuntime) -> Result<(), Fail> {
    let table = "
# from the front and from behind, which have six and ten fragments
sequence p --size 4x4 | 0 WWW. WW.. W... .... + WWWW .WWW ..WW ...W | p = TWO_SIDES
sequence p --size 4x4 --nodes 10 --threads 64 | 0 WWW. WW.. W... .... + WWWW .WWW ..WW ...W | p = TWO_SIDES
sequence p --size 4x4 --nodes 6 | 5 image 2: pool full: 10 fragments, 6 nodes + WWW. WW.. W... .... | p = TWO_SIDES
sequence p --size 4x4 --nodes 5 | 5 image 1: pool full: 6 fragments, 5 nodes | p = TWO_SIDES
# from behind first, with blanks, comments and other line ends
sequence --size=4x4 --threads=1 -- p | 0 WWWW .WWW ..WW ...W + WWW. WW.. W... .... | p = # from behind first;;  \t0 0 001 -0 0 0 -4e0 # ten fragments\r; #; 1\t0 0 0 0 0 -4
# two images before the one that is full
sequence p --size 4x4 --nodes 6 | 5 image 3: pool full: 10 fragments, 6 nodes + WWW. WW.. W... .... + WWW. WW.. W... .... | p = 1 0 0 0 0 0 -4; 1 0 0 0 0 0 -4; 0 0 1 0 0 0 -4; 1 0 0 0 0 0 -4;
# no shots
sequence p --size 4x4 --nodes 6 | 0 | p
sequence p --size 4x4 --nodes 6 | 0 | p = ;   # no shots; \r;
";
    words_answer(&rt, rt.alloc(), "UPPER", table)
}

/// No frame comes back.
#[test]
fn frames_of_sequences(rt: HostRuntime) -> Result<(), Fail> {
    let alloc = rt.alloc();
    for nodes in ["16", "6"] {
        let words = format!(in alloc; "sequence p --size 4x4 --nodes {nodes}")?;
        let steady = Outside::steady(alloc);
        let outcome = carry_out(&rt, alloc, words.as_str(), "UPPER", "p = TWO_SIDES", steady)?;
        assert!(rt; outcome.closed.is_none());
    }
    Ok(())
}

/// A path is refused by its first faulty line, also where the scene can't be read.
#[test]
fn paths_that_are_refused(rt: HostRuntime) -> Result<(), Fail> {
    let alloc = rt.alloc();
    let table = "
9 path line 1: bad turn | p = 0 0 0 0 0 0 -4;
9 path line 1: wrong count | p = 1 0 0 0 0 0;
9 path line 1: bad number | p = 1 0 0 0 0 0 x;
9 path line 1: wrong count | p = 1 0 0 0 0 0 -4 0;
9 path line 1: wrong count | p = 1 0 0 0 0 0 #-4;
9 path line 1: wrong count | p = 0 0 0 0 0 x;
9 path line 1: bad turn | p = 0 0 0 0 0 0 x;
9 path line 1: bad turn | p = 1 0 0 1025 0 0 0;
9 path line 1: bad turn | p = +1 0 0 0 0 0 0;
9 path line 1: bad turn | p = 1 0 0 00001 0 0 0;
9 path line 1: bad number | p = 1 0 0 0 0 0 32768;
9 path line 1: bad number | p = 1 0 0 0 0,0 0 0;
9 path line 4: wrong count | p = # a path; ; 1 0 0 0 0 0 -4; 1 0 0 0; x;
";
    for line in table.lines() {
        if is_case(line) {
            let (answer, held) = column(line);
            let mut unread = Outside::steady(alloc);
            unread.reads = bytewise(alloc, 0)?;
            let outcome = carry_out(&rt, alloc, SMALL, "UPPER", held, unread)?;
            assert!(rt;
                is_answer(alloc, &outcome, answer)?,
                "{line}: status {}",
                outcome.status
            );
        }
    }
    Ok(())
}

/// The words come before the path, and the path before the scene.
#[test]
fn path_that_is_missing(rt: HostRuntime) -> Result<(), Fail> {
    let alloc = rt.alloc();
    let table = "
sequence p --size 4x4 | 9 path missing
sequence  | 2 bad value: path
sequence  --maxval 1 | 2 bad value: maxval
sequence | 2 words not understood
sequence p q | 2 words not understood
sequence p --turn=1,0,0,0 | 2 words not understood
sequence p --move=0,0,-4 | 2 words not understood
sequence p --bands 1 | 2 words not understood
sequence p --peel | 2 words not understood
";
    words_answer(&rt, alloc, "UPPER", table)?;
    let mut unread = Outside::steady(alloc);
    unread.reads = bytewise(alloc, 0)?;
    let outcome = carry_out(&rt, alloc, SMALL, "UPPER", "", unread)?;
    assert!(rt; is_answer(alloc, &outcome, "9 path missing")?);
    Ok(())
}

/// The scene and its libraries are read after the path, and also where there are no shots.
#[test]
fn scenes_that_are_refused(rt: HostRuntime) -> Result<(), Fail> {
    let table = "
sequence p --size 4x4 --nodes 16 | f 1 2 3; | 3 line 1: bad index | p
sequence p --size 4x4 --nodes 16 | f 1 2 3; | 3 line 1: bad index | p = TWO_SIDES
sequence p --size 4x4 --nodes 16 | RED | 4 library 1 missing | p
sequence p --size 4x4 --nodes 16 | RED | 4 library 1 missing | p = TWO_SIDES
sequence p --size 4x4 --nodes 16 | RED | 9 path line 1: wrong count | p = 1;
";
    all_answer(&rt, rt.alloc(), table)
}

/// The path is the first call of the shelf, and the only one where it is refused or the scene has no libraries.
#[test]
fn calls_of_the_shelf(rt: HostRuntime) -> Result<(), Fail> {
    let alloc = rt.alloc();
    let cases = [
        (0, "UPPER", "p = TWO_SIDES", "6 read fault"),
        (0, "UPPER", "p = 1;", "6 read fault"),
        (1, "UPPER", "p = 1;", "9 path line 1: wrong count"),
        (1, "RED", "p = 1;", "9 path line 1: wrong count"),
        (1, "RED", "p = TWO_SIDES", "6 read fault"),
        (1, "UPPER", "p", "0"),
    ];
    for (call, scene, held, answer) in cases {
        let mut outside = Outside::steady(alloc);
        outside.fails.push(call)?;
        let outcome = carry_out(&rt, alloc, SMALL, scene, held, outside)?;
        assert!(rt; is_answer(alloc, &outcome, answer)?, "call {call}, {held}");
    }
    Ok(())
}

/// A fault in the second image leaves the first, and what was written of the second.
#[test]
fn writing_that_fails_in_an_image(rt: HostRuntime) -> Result<(), Fail> {
    let alloc = rt.alloc();
    let files = images(alloc, "WWW. WW.. W... .... + WWWW .WWW ..WW ...W")?;
    assert!(rt; files.len() == 214);
    for count in [0, 1, 106, 107, 108, 112, 213] {
        let mut outside = Outside::steady(alloc);
        outside.writes = bytewise(alloc, count)?;
        let outcome = carry_out(&rt, alloc, SMALL, "UPPER", "p = TWO_SIDES", outside)?;
        assert!(rt; outcome.status == 7, "after {count} bytes");
        assert!(rt; outcome.err.taken() == b"write fault\n".as_slice());
        assert!(rt;
            Some(outcome.out.taken()) == files.get(..count),
            "after {count} bytes"
        );
    }
    Ok(())
}

/// The first image goes to the sink whole, before anything is said of the second.
#[test]
fn first_image_before_the_second(rt: HostRuntime) -> Result<(), Fail> {
    let alloc = rt.alloc();
    let full = "sequence p --size 4x4 --nodes 6";
    let two = "p = TWO_SIDES";
    let mut piped = Outside::steady(alloc);
    piped.writes = cut(alloc, 107)?;
    let outcome = carry_out(&rt, alloc, SMALL, "UPPER", two, piped)?;
    assert!(rt; is_answer(alloc, &outcome, "7 write fault + WWW. WW.. W... ....")?);
    let mut piped = Outside::steady(alloc);
    piped.writes = cut(alloc, 107)?;
    let outcome = carry_out(&rt, alloc, full, "UPPER", two, piped)?;
    let answer = "5 image 2: pool full: 10 fragments, 6 nodes + WWW. WW.. W... ....";
    assert!(rt; is_answer(alloc, &outcome, answer)?);
    let mut broken = Outside::steady(alloc);
    broken.writes = cut(alloc, 50)?;
    let outcome = carry_out(&rt, alloc, full, "UPPER", two, broken)?;
    assert!(rt; outcome.status == 7 && outcome.err.taken() == b"write fault\n".as_slice());
    assert!(rt; outcome.out.taken().len() == 50);
    Ok(())
}

/// So many times the same piece.
fn repeated(alloc: Global, piece: &[u8], count: usize) -> Result<List<u8>, Fail> {
    let mut text = Vec::new(alloc);
    for _ in 0..count {
        text.extend_from_slice(piece)?;
    }
    Ok(List::from_vec(text))
}

/// Runs the command over a path file that is made here.
fn follow_long<R: Threads + Sync>(
    rt: &R,
    alloc: Global,
    words: &str,
    path: List<u8>,
) -> Result<CommandOutcome, Fail> {
    let mut held = List::new(alloc);
    held.push((List::from_vec(b"p".to_vec(alloc)?), path))?;
    let none = List::new(alloc);
    carry_out_over(rt, alloc, words, none, held, Outside::steady(alloc))
}

/// At most 4096 shots.
#[test]
fn most_shots(rt: HostRuntime) -> Result<(), Fail> {
    let alloc = rt.alloc();
    let words = "sequence p --size 1x1 --nodes 1 --threads 1";
    let shot = b"1 0 0 0 0 0 -4\n";
    let outcome = follow_long(&rt, alloc, words, repeated(alloc, shot, 4097)?)?;
    assert!(rt; is_answer(alloc, &outcome, "9 path line 4097: too many images")?);
    let outcome = follow_long(&rt, alloc, words, repeated(alloc, shot, 4096)?)?;
    let files = repeated(alloc, &images(alloc, ".")?, 4096)?;
    assert!(rt; outcome.status == 0 && outcome.out.taken() == files.as_slice());
    Ok(())
}

/// At most 1 MiB of a path file.
#[test]
fn longest_path(rt: HostRuntime) -> Result<(), Fail> {
    let alloc = rt.alloc();
    let outcome = follow_long(&rt, alloc, SMALL, repeated(alloc, b"\n", 1048577)?)?;
    assert!(rt; is_answer(alloc, &outcome, "9 path too long")?);
    let outcome = follow_long(&rt, alloc, SMALL, repeated(alloc, b"\n", 1048576)?)?;
    assert!(rt; is_answer(alloc, &outcome, "0")?);
    Ok(())
}
