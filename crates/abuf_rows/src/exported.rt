// A cube as exporters write it.
use crate::command::{Outside, all_answer, carry_out_over, is_answer};
use crate::scenes::{CUBE, CUBE_LIBRARY};
use abuf_num::List;
use std::alloc::Global;
use std::test::Fail;

/// The four middle pixels show the cube, which has eight fragments.
#[test]
fn exported_cube(rt: HostRuntime) -> Result<(), Fail> {
    let table = "
render --size 4x4 | CUBE | 0 .... .gg. .gg. .... | cube.mtl = CUBE_LIBRARY
render --size 4x4 --nodes 7 | CUBE | 5 pool full: 8 fragments, 7 nodes | cube.mtl = CUBE_LIBRARY
";
    all_answer(&rt, rt.alloc(), table)
}

/// The lines of a text with a carriage return before each line feed, and without the last of both.
fn with_returns(alloc: Global, text: &[u8]) -> Result<List<u8>, Fail> {
    let mut bytes = Vec::new(alloc);
    for line in text.split(|&byte| byte == b'\n') {
        if !bytes.is_empty() && !line.is_empty() {
            bytes.extend_from_slice(b"\r\n")?;
        }
        bytes.extend_from_slice(line)?;
    }
    Ok(List::from_vec(bytes))
}

/// Other line ends change nothing.
#[test]
fn other_line_ends(rt: HostRuntime) -> Result<(), Fail> {
    let alloc = rt.alloc();
    let name = List::from_vec(b"cube.mtl".to_vec(alloc)?);
    let mut held = List::new(alloc);
    held.push((name, with_returns(alloc, CUBE_LIBRARY)?))?;
    let scene = with_returns(alloc, CUBE)?;
    let steady = Outside::steady(alloc);
    let outcome = carry_out_over(&rt, alloc, "render --size 4x4", scene, held, steady)?;
    assert!(rt; is_answer(alloc, &outcome, "0 .... .gg. .gg. ....")?);
    Ok(())
}
