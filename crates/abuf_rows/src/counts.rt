// Scenes and libraries that go one past a limit, and the longest of them.
use crate::command::{CommandOutcome, Outside, carry_out_over, is_answer};
use abuf_num::List;
use std::alloc::Global;
use std::test::Fail;
use std::thread::Threads;

const SMALL: &str = "render --size 4x4 --nodes 16";

const BLACK: &str = "0 .... .... .... ....";

/// A line so many times after a front.
fn repeated(alloc: Global, front: &[u8], line: &[u8], count: u32) -> Result<Vec<u8>, Fail> {
    let mut text = front.to_vec(alloc)?;
    for _ in 0..count {
        text.extend_from_slice(line)?;
    }
    Ok(text)
}

/// So many lines of the keyword, each with a number of its own.
fn numbered(alloc: Global, keyword: &str, count: u32) -> Result<Vec<u8>, Fail> {
    let mut text = Vec::new(alloc);
    for number in 0..count {
        let line = format!(in alloc; "{keyword} m{number}\n")?;
        text.extend_from_slice(line.as_bytes())?;
    }
    Ok(text)
}

/// The outcome of a scene, without libraries.
fn drawn<R: Threads + Sync>(rt: &R, alloc: Global, scene: Vec<u8>) -> Result<CommandOutcome, Fail> {
    let scene = List::from_vec(scene);
    carry_out_over(
        rt,
        alloc,
        SMALL,
        scene,
        List::new(alloc),
        Outside::steady(alloc),
    )
}

/// The outcome of a scene that has only this library.
fn with_library<R: Threads + Sync>(
    rt: &R,
    alloc: Global,
    library: Vec<u8>,
) -> Result<CommandOutcome, Fail> {
    let scene = List::from_vec(b"mtllib a.mtl\n".to_vec(alloc)?);
    let name = List::from_vec(b"a.mtl".to_vec(alloc)?);
    let mut held = List::new(alloc);
    held.push((name, List::from_vec(library)))?;
    carry_out_over(rt, alloc, SMALL, scene, held, Outside::steady(alloc))
}

/// Point 1048577, and the triangle after 1048576 others.
#[test]
fn points_and_triangles_past_their_limits(rt: HostRuntime) -> Result<(), Fail> {
    let alloc = rt.alloc();
    let points = repeated(alloc, b"", b"v 0 0 0\n", 1048577)?;
    let outcome = drawn(&rt, alloc, points)?;
    assert!(rt; is_answer(alloc, &outcome, "3 line 1048577: too many points")?);
    let elements = repeated(alloc, b"f", b" 1", 64)?;
    let face = repeated(alloc, &elements, b"\n", 1)?;
    let faces = repeated(alloc, b"v 0 0 0\n", &face, 16913)?;
    let outcome = drawn(&rt, alloc, faces)?;
    assert!(rt; is_answer(alloc, &outcome, "3 line 16914: too many triangles")?);
    Ok(())
}

/// Library 17, and material 4097 of a scene.
#[test]
fn names_past_their_limits(rt: HostRuntime) -> Result<(), Fail> {
    let alloc = rt.alloc();
    let outcome = drawn(&rt, alloc, numbered(alloc, "mtllib", 17)?)?;
    assert!(rt; is_answer(alloc, &outcome, "3 line 17: too many libraries")?);
    let outcome = drawn(&rt, alloc, numbered(alloc, "usemtl", 4097)?)?;
    assert!(rt; is_answer(alloc, &outcome, "3 line 4097: too many materials")?);
    Ok(())
}

/// A library has room for 4096 names; the first of them may come again.
#[test]
fn materials_of_a_library_past_their_limit(rt: HostRuntime) -> Result<(), Fail> {
    let alloc = rt.alloc();
    let full = numbered(alloc, "newmtl", 4096)?;
    let again = repeated(alloc, &full, b"newmtl m0\n", 1)?;
    let outcome = with_library(&rt, alloc, again)?;
    assert!(rt; is_answer(alloc, &outcome, BLACK)?);
    let outcome = with_library(&rt, alloc, numbered(alloc, "newmtl", 4097)?)?;
    assert!(rt; is_answer(alloc, &outcome, "4 library 1 line 4097: too many materials")?);
    Ok(())
}

/// A number and an element of a million bytes.
#[test]
fn long_tokens(rt: HostRuntime) -> Result<(), Fail> {
    let alloc = rt.alloc();
    let number = repeated(alloc, b"v ", b"0", 1000000)?;
    let number = repeated(alloc, &number, b" 0 0\n", 1)?;
    let outcome = drawn(&rt, alloc, number)?;
    assert!(rt; is_answer(alloc, &outcome, "3 line 1: bad number")?);
    let element = repeated(alloc, b"v -4 4 0\nv 4 4 0\nv -4 -4 0\nf 1", b"/", 1000000)?;
    let element = repeated(alloc, &element, b" 2 3\n", 1)?;
    let outcome = drawn(&rt, alloc, element)?;
    assert!(rt; is_answer(alloc, &outcome, "3 line 4: bad index")?);
    Ok(())
}

/// 64 MiB of empty lines are the most that is read of a scene.
#[test]
fn most_bytes_of_a_scene(rt: HostRuntime) -> Result<(), Fail> {
    let alloc = rt.alloc();
    let outcome = drawn(&rt, alloc, repeated(alloc, b"", b"\n", 67108864)?)?;
    assert!(rt; is_answer(alloc, &outcome, BLACK)?);
    let outcome = drawn(&rt, alloc, repeated(alloc, b"", b"\n", 67108865)?)?;
    assert!(rt; is_answer(alloc, &outcome, "3 scene too long")?);
    Ok(())
}

/// A library may have 67108864 bytes, and one more is refused.
#[test]
fn most_bytes_of_a_library(rt: HostRuntime) -> Result<(), Fail> {
    let alloc = rt.alloc();
    let outcome = with_library(&rt, alloc, repeated(alloc, b"", b"\n", 67108864)?)?;
    assert!(rt; is_answer(alloc, &outcome, BLACK)?);
    let outcome = with_library(&rt, alloc, repeated(alloc, b"", b"\n", 67108865)?)?;
    assert!(rt; is_answer(alloc, &outcome, "4 library 1 too long")?);
    Ok(())
}
