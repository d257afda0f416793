// Faults of the outside.
ghost use Rattle.std.specs.Prelude.{◌≡◌, IfOk, true};
ghost use Rattle.abuf_io.specs.Plans.{IsPlan, lets_some};

use crate::command::{Outside, carry_out, images, is_answer};
use abuf_io::Step;
use abuf_num::List;
use std::alloc::Global;
use std::test::Fail;

/// Few nodes, since the table of the usual number takes long to make so often.
const SMALL: &str = "render --size 4x4 --nodes 16";

/// Puts a step last.
#[tactic(auto, using(crate::proofs::Plans::longer))]
fn then(plan: &mut List<Step>, step: Step) -> Result<(), Fail>
    requires plan { IsPlan plan.old }
    requires step { lets_some step ≡ true }
    ensures { IsPlan plan.new }
{
    plan.push(step)?;
    Ok(())
}

/// So many steps of one byte each, and then a fault.
pub(crate) fn bytewise(alloc: Global, count: usize) -> Result<List<Step>, Fail>
    ensures { IfOk result IsPlan }
{
    let mut plan = List::new(alloc);
    'steps: for _ in 0..count {
        then(&mut plan, Step::Take(1))?;
    }
    then(&mut plan, Step::Fail)?;
    Ok(plan)
}

/// A step of so many bytes, and then a fault.
pub(crate) fn cut(alloc: Global, count: u32) -> Result<List<Step>, Fail>
    requires { lets_some (Step.Take count) ≡ true }
    ensures { IfOk result IsPlan }
{
    let mut plan = List::new(alloc);
    plan.push(Step::Take(count))?;
    plan.push(Step::Fail)?;
    Ok(plan)
}

/// A scene of 35 bytes is read whole only where the read that finds its end doesn't fail either.
#[test]
fn reading_that_fails_at_each_byte(rt: HostRuntime) -> Result<(), Fail> {
    let alloc = rt.alloc();
    for count in 0..37 {
        let mut outside = Outside::steady(alloc);
        outside.reads = bytewise(alloc, count)?;
        let outcome = carry_out(&rt, alloc, SMALL, "UPPER", "", outside)?;
        let answer = if count < 36 {
            "6 read fault"
        } else {
            "0 WWW. WW.. W... ...."
        };
        assert!(rt; is_answer(alloc, &outcome, answer)?, "after {count} bytes");
    }
    Ok(())
}

/// An image of 107 bytes is written up to the fault.
#[test]
fn writing_that_fails_at_each_byte(rt: HostRuntime) -> Result<(), Fail> {
    let alloc = rt.alloc();
    let file = images(alloc, "WWW. WW.. W... ....")?;
    assert!(rt; file.len() == 107);
    for count in 0..108 {
        let mut outside = Outside::steady(alloc);
        outside.writes = bytewise(alloc, count)?;
        let outcome = carry_out(&rt, alloc, SMALL, "UPPER", "", outside)?;
        let status = if count < 107 { 7 } else { 0 };
        assert!(rt; outcome.status == status, "after {count} bytes");
        assert!(rt;
            Some(outcome.out.taken()) == file.get(..count),
            "after {count} bytes"
        );
    }
    Ok(())
}

/// The first image byte that is refused ends the writing, and none follows the last.
#[test]
fn writing_in_pieces(rt: HostRuntime) -> Result<(), Fail> {
    let alloc = rt.alloc();
    let words = "render --size 1x1";
    let mut outside = Outside::steady(alloc);
    outside.writes = cut(alloc, 20)?;
    let outcome = carry_out(&rt, alloc, words, "", "", outside)?;
    assert!(rt; outcome.status == 7 && outcome.err.taken() == b"write fault\n".as_slice());
    assert!(rt; outcome.out.taken() == b"P7\nWIDTH 1\nHEIGHT 1\n".as_slice());
    let mut outside = Outside::steady(alloc);
    outside.writes = cut(alloc, 62)?;
    let outcome = carry_out(&rt, alloc, words, "", "", outside)?;
    assert!(rt; is_answer(alloc, &outcome, "0 .")?);
    let mut plan = List::new(alloc);
    then(&mut plan, Step::Take(20))?;
    then(&mut plan, Step::Take(42))?;
    then(&mut plan, Step::Fail)?;
    let mut outside = Outside::steady(alloc);
    outside.writes = plan;
    let outcome = carry_out(&rt, alloc, words, "", "", outside)?;
    assert!(rt; is_answer(alloc, &outcome, "0 .")?);
    Ok(())
}

/// A scene that is cut off by a fault is a fault of reading.
#[test]
fn reading_a_piece(rt: HostRuntime) -> Result<(), Fail> {
    let alloc = rt.alloc();
    let mut outside = Outside::steady(alloc);
    outside.reads = cut(alloc, 9)?;
    let outcome = carry_out(&rt, alloc, SMALL, "UPPER", "", outside)?;
    assert!(rt; is_answer(alloc, &outcome, "6 read fault")?);
    Ok(())
}

/// The line on the standard error is cut off by a fault there, and the status stays.
#[test]
fn reporting_that_fails(rt: HostRuntime) -> Result<(), Fail> {
    let alloc = rt.alloc();
    let mut outside = Outside::steady(alloc);
    outside.reports = cut(alloc, 5)?;
    let words = "render --size 4x4 --nodes 15";
    let outcome = carry_out(&rt, alloc, words, "SQUARE", "", outside)?;
    assert!(rt; outcome.status == 5 && outcome.out.taken().is_empty());
    assert!(rt; outcome.err.taken() == b"pool ".as_slice());
    Ok(())
}

/// A fetch that fails is a fault of reading, unless the library before it is refused.
#[test]
fn fetching_that_fails(rt: HostRuntime) -> Result<(), Fail> {
    let alloc = rt.alloc();
    let cases = [
        (0, "a.mtl | b.mtl", "6 read fault"),
        (1, "a.mtl | b.mtl", "6 read fault"),
        (2, "a.mtl | b.mtl", "0 .... .... .... ...."),
        (1, "a.mtl = d 1; | b.mtl", "4 library 1 line 1: no material"),
    ];
    for (call, held, answer) in cases {
        let mut outside = Outside::steady(alloc);
        outside.fails.push(call)?;
        let outcome = carry_out(&rt, alloc, SMALL, "TWO_LIBRARIES", held, outside)?;
        assert!(rt; is_answer(alloc, &outcome, answer)?, "call {call}");
    }
    Ok(())
}
