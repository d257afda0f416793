// The fragments of one pixel, by `pick`.
use crate::command::{Outside, all_write, carry_out, is_answer, is_text, words_answer};
use crate::outside::cut;
use std::test::Fail;

/// A pixel's fragments: their number, a line for each, and a line for each sample.
#[test]
fn fragments_of_a_pixel(rt: HostRuntime) -> Result<(), Fail> {
    let table = "
pick 3,0 --size 4x4 | SQUARE | fragments 1; prim 1 mask 1; sample 0 prim 1 depth 524287;
pick 3,3 --size 4x4 | UPPER | fragments 0; sample 0;
pick 0,0 --size 4x4 | UPPER | fragments 1; prim 0 mask 1; sample 0 prim 0 depth 524287;
pick --size 4x4 --threads 64 -- 0,02 | UPPER | fragments 1; prim 0 mask 1; sample 0 prim 0 depth 524287;
pick 1,1 --size 3x4 | SHARED_CUT | fragments 1; prim 3 mask 1; sample 0 prim 3 depth 3145727;
pick 0,0 --size 1x1 |  | fragments 0; sample 0;
pick 0,0 --size 1x1 --samples 2 |  | fragments 0; sample 0; sample 1;
";
    all_write(&rt, rt.alloc(), table)
}

/// The left half of a pixel, in each of the patterns.
#[test]
fn samples_of_a_fragment(rt: HostRuntime) -> Result<(), Fail> {
    let table = "
pick 0,0 --size 1x1 | LEFT_HALF | fragments 0; sample 0;
pick 0,0 --size 1x1 --samples 2 | LEFT_HALF | fragments 1; prim 0 mask 2; sample 0; sample 1 prim 0 depth 524287;
pick 0,0 --size 1x1 --samples 4 | LEFT_HALF | fragments 1; prim 0 mask 5; sample 0 prim 0 depth 524287; sample 1; sample 2 prim 0 depth 524287; sample 3;
pick 0,0 --size 1x1 --samples 8 | LEFT_HALF | fragments 1; prim 0 mask 58; sample 0; sample 1 prim 0 depth 524287; sample 2; sample 3 prim 0 depth 524287; sample 4 prim 0 depth 524287; sample 5 prim 0 depth 524287; sample 6; sample 7;
pick 0,0 --size 1x1 --samples 16 | LEFT_HALF | fragments 1; prim 0 mask 40214; sample 0; sample 1 prim 0 depth 524287; sample 2 prim 0 depth 524287; sample 3; sample 4 prim 0 depth 524287; sample 5; sample 6; sample 7; sample 8 prim 0 depth 524287; sample 9; sample 10 prim 0 depth 524287; sample 11 prim 0 depth 524287; sample 12 prim 0 depth 524287; sample 13; sample 14; sample 15 prim 0 depth 524287;
";
    all_write(&rt, rt.alloc(), table)
}

/// Fragments stand by their numbers; those of a sample from the farthest to the nearest, and at one depth in the order of the
/// file.
#[test]
fn order_of_fragments(rt: HostRuntime) -> Result<(), Fail> {
    let alloc = rt.alloc();
    let table = "
pick 0,0 --size 1x1 | LAYERS | fragments 5; prim 0 mask 1; prim 1 mask 1; prim 2 mask 1; prim 3 mask 1; prim 4 mask 1; sample 0 prim 1 depth 419430 prim 4 depth 419430 prim 2 depth 524287 prim 0 depth 699050 prim 3 depth 699050;
pick 1,0 --size 2x1 --threads 1 | LAYERS | fragments 5; prim 0 mask 1; prim 1 mask 1; prim 2 mask 1; prim 3 mask 1; prim 4 mask 1; sample 0 prim 1 depth 419430 prim 4 depth 419430 prim 2 depth 524287 prim 0 depth 699050 prim 3 depth 699050;
pick 0,1 --size 1x2 --threads 64 | LAYERS | fragments 5; prim 0 mask 1; prim 1 mask 1; prim 2 mask 1; prim 3 mask 1; prim 4 mask 1; sample 0 prim 1 depth 419430 prim 4 depth 419430 prim 2 depth 524287 prim 0 depth 699050 prim 3 depth 699050;
pick 0,0 --size 1x1 --nodes 5 --background 1,1,1 | LAYERS | fragments 5; prim 0 mask 1; prim 1 mask 1; prim 2 mask 1; prim 3 mask 1; prim 4 mask 1; sample 0 prim 1 depth 419430 prim 4 depth 419430 prim 2 depth 524287 prim 0 depth 699050 prim 3 depth 699050;
pick 2,1 --size 3x2 --nodes 30 --maxval 65535 | LAYERS | fragments 5; prim 0 mask 1; prim 1 mask 1; prim 2 mask 1; prim 3 mask 1; prim 4 mask 1; sample 0 prim 1 depth 419430 prim 4 depth 419430 prim 2 depth 524287 prim 0 depth 699050 prim 3 depth 699050;
";
    all_write(&rt, alloc, table)?;
    let full = "
pick 0,0 --size 1x1 --nodes 4 | 5 pool full: 5 fragments, 4 nodes
pick 2,1 --size 3x2 --nodes 29 | 5 pool full: 30 fragments, 29 nodes
";
    words_answer(&rt, alloc, "LAYERS", full)
}

/// Two faces that cross inside a pixel stand in one order on one side of the crossing, and in the other on the other.
#[test]
fn order_on_either_side_of_a_crossing(rt: HostRuntime) -> Result<(), Fail> {
    let table = "
pick 0,0 --size 1x1 --samples 2 | CROSSING | fragments 2; prim 0 mask 3; prim 1 mask 3; sample 0 prim 0 depth 466033 prim 1 depth 507903; sample 1 prim 1 depth 409599 prim 0 depth 466033; | x.mtl = OPAQUE
pick 0,0 --size 1x1 --samples 2 --threads 1 | CROSSING | fragments 2; prim 0 mask 3; prim 1 mask 3; sample 0 prim 0 depth 466033 prim 1 depth 507903; sample 1 prim 1 depth 409599 prim 0 depth 466033; | x.mtl = OPAQUE
pick 0,0 --size 1x1 --samples 2 --threads 64 --nodes 2 | CROSSING | fragments 2; prim 0 mask 3; prim 1 mask 3; sample 0 prim 0 depth 466033 prim 1 depth 507903; sample 1 prim 1 depth 409599 prim 0 depth 466033; | x.mtl = OPAQUE
";
    all_write(&rt, rt.alloc(), table)
}

/// Pixels that aren't in the image, and words that aren't those of the command.
#[test]
fn words_of_pick(rt: HostRuntime) -> Result<(), Fail> {
    let table = "
pick 4,0 --size 4x4 | 2 bad value: at
pick 0,4 --size 4x4 | 2 bad value: at
pick 3,0 --size 3x4 | 2 bad value: at
pick 0 --size 4x4 | 2 bad value: at
pick 0,0,0 --size 4x4 | 2 bad value: at
pick 00000,0 --size 4x4 | 2 bad value: at
pick +1,0 --size 4x4 | 2 bad value: at
pick --size 4x4 -- -1,0 | 2 bad value: at
pick x --size 4x4 --maxval 1 | 2 bad value: maxval
pick | 2 words not understood
pick --size 4x4 | 2 words not understood
pick 0,0 1,1 | 2 words not understood
pick -1,0 | 2 words not understood
render 0,0 | 2 words not understood
";
    words_answer(&rt, rt.alloc(), "UPPER", table)
}

/// The frame comes back with the statuses 0, 5 and 7.
#[test]
fn frames_of_picks(rt: HostRuntime) -> Result<(), Fail> {
    let alloc = rt.alloc();
    let words = "pick 0,0 --size 4x4 --nodes 16";
    let outcome = carry_out(&rt, alloc, words, "SQUARE", "", Outside::steady(alloc))?;
    let text = "fragments 1; prim 0 mask 1; sample 0 prim 0 depth 524287;";
    assert!(rt; is_text(alloc, &outcome, text)?);
    assert!(rt;
        outcome
            .closed
            .is_some_and(|closed| closed.fragments() == 16)
    );

    let small = "pick 0,0 --size 4x4 --nodes 15";
    let outcome = carry_out(&rt, alloc, small, "SQUARE", "", Outside::steady(alloc))?;
    assert!(rt; is_answer(alloc, &outcome, "5 pool full: 16 fragments, 15 nodes")?);
    assert!(rt;
        outcome
            .closed
            .is_some_and(|closed| closed.fragments() == 16)
    );

    let mut unread = Outside::steady(alloc);
    unread.reads = cut(alloc, 9)?;
    let outcome = carry_out(&rt, alloc, words, "SQUARE", "", unread)?;
    assert!(rt; is_answer(alloc, &outcome, "6 read fault")? && outcome.closed.is_none());

    let mut unwritten = Outside::steady(alloc);
    unwritten.writes = cut(alloc, 5)?;
    let outcome = carry_out(&rt, alloc, words, "SQUARE", "", unwritten)?;
    assert!(rt; outcome.status == 7 && outcome.out.taken() == b"fragm".as_slice());
    assert!(rt; outcome.err.taken() == b"write fault\n".as_slice() && outcome.closed.is_some());
    Ok(())
}
