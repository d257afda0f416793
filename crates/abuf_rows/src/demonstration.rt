// The demonstration scene, by `demo`.
use crate::command::{Outside, all_write, carry_out, is_answer, is_text, words_answer};
use crate::outside::bytewise;
use std::test::Fail;

/// The four lines: the number of primitives in front of the near plane, of fragments, of those in the fullest pixel, and the sum
/// of the image's values.
#[test]
fn summaries(rt: HostRuntime) -> Result<(), Fail> {
    let table = "
demo 1 --size 1x1 --move 0,0.3,-4 |  | triangles 1; fragments 1; longest 1; sum 32;
demo 9 --size 5x4 --move 0,0,-2 |  | triangles 9; fragments 6; longest 2; sum 979;
demo --size 5x4 --move 0,0,-2 --samples 8 -- 000009 |  | triangles 9; fragments 25; longest 5; sum 900;
demo 9 --size 5x4 --move 0,0,-2 --maxval 65535 |  | triangles 9; fragments 6; longest 2; sum 1488;
demo 9 --size 5x4 --move 0,0,-2 --background 1,1,1 |  | triangles 9; fragments 6; longest 2; sum 14399;
demo 30 --size 4x4 --move 0,0,0 |  | triangles 36; fragments 43; longest 5; sum 7030;
";
    all_write(&rt, rt.alloc(), table)
}

/// Numbers out of range, words that aren't those of the command, and a pool that is too small.
#[test]
fn refusals_of_demo(rt: HostRuntime) -> Result<(), Fail> {
    let table = "
demo 0 | 2 bad value: number
demo 200001 | 2 bad value: number
demo 1000000 | 2 bad value: number
demo 0000001 | 2 bad value: number
demo +1 | 2 bad value: number
demo 1x1 | 2 bad value: number
demo -- -1 | 2 bad value: number
demo 0 --near 0 | 2 bad value: near
demo | 2 words not understood
demo 1 2 | 2 words not understood
demo 30 --size 4x4 --move 0,0,0 --nodes 42 | 5 pool full: 43 fragments, 42 nodes
";
    words_answer(&rt, rt.alloc(), "", table)
}

/// Any number of threads gives the same four lines.
#[test]
fn large_summaries(rt: HostRuntime) -> Result<(), Fail> {
    let table = "
demo 1000 --size 64x48 --threads 1 |  | triangles 1000; fragments 19690; longest 238; sum 160776;
demo 1000 --size 64x48 --threads 64 |  | triangles 1000; fragments 19690; longest 238; sum 160776;
demo 20000 --size 64x48 --threads 1 |  | triangles 20000; fragments 393171; longest 4928; sum 210871;
demo 20000 --size 64x48 --threads 7 |  | triangles 20000; fragments 393171; longest 4928; sum 210871;
";
    all_write(&rt, rt.alloc(), table)
}

/// The largest scene: nearly four million fragments, in lists of up to fifty thousand.
#[test]
fn largest_summary(rt: HostRuntime) -> Result<(), Fail> {
    let table = "
demo 200000 --size 64x48 --nodes 8388608 --threads 1 |  | triangles 200000; fragments 3929398; longest 49394; sum 240668;
demo 200000 --size 64x48 --nodes 8388608 --threads 64 |  | triangles 200000; fragments 3929398; longest 49394; sum 240668;
";
    all_write(&rt, rt.alloc(), table)
}

/// Neither the source nor the shelf is called, so none of their faults is met. A full pool hands back its frame.
#[test]
fn nothing_is_read(rt: HostRuntime) -> Result<(), Fail> {
    let alloc = rt.alloc();
    let mut failing = Outside::steady(alloc);
    failing.reads = bytewise(alloc, 0)?;
    failing.fails.push(0)?;
    let words = "demo 1 --size 1x1 --move 0,0.3,-4";
    let outcome = carry_out(&rt, alloc, words, "foo(", "", failing)?;
    let text = "triangles 1; fragments 1; longest 1; sum 32;";
    assert!(rt;
        is_text(alloc, &outcome, text)?,
        "status {}",
        outcome.status
    );
    assert!(rt; outcome.closed.is_some_and(|closed| closed.fragments() == 1));
    let full = "demo 30 --size 4x4 --move 0,0,0 --nodes 42";
    let outcome = carry_out(&rt, alloc, full, "", "", Outside::steady(alloc))?;
    assert!(rt; is_answer(alloc, &outcome, "5 pool full: 43 fragments, 42 nodes")?);
    assert!(rt;
        outcome
            .closed
            .is_some_and(|closed| closed.fragments() == 43)
    );
    Ok(())
}
