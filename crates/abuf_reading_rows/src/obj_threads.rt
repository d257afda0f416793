// Files that are read in pieces: each gives what it gives as a whole.
use abuf_num::List;
use abuf_obj::{Face, FlatObj, Obj, ObjFault, Why, read_in_pieces, read_obj, read_obj_on_threads};
use std::alloc::{AllocError, Global};
use std::test::Fail;
use std::thread::Threads;

fn are_same_names(first: &[List<u8>], second: &[List<u8>]) -> bool {
    first.len() == second.len()
        && first
            .iter()
            .zip(second)
            .all(|(a, b)| a.as_slice() == b.as_slice())
}

fn are_same_faces(first: &[Face], second: &[Face]) -> bool {
    first.len() == second.len()
        && first.iter().zip(second).all(|(a, b)| {
            a.line == b.line && a.name == b.name && a.corners.as_slice() == b.corners.as_slice()
        })
}

fn are_same(first: &Obj, second: &Obj) -> bool {
    first.points.as_slice() == second.points.as_slice()
        && are_same_faces(first.faces.as_slice(), second.faces.as_slice())
        && are_same_names(first.names.as_slice(), second.names.as_slice())
        && are_same_names(first.libraries.as_slice(), second.libraries.as_slice())
}

/// The pieces give the scene of the whole, or are given up where it has a fault.
fn agree<R: Threads + Sync>(rt: &R, alloc: Global, bytes: &[u8], pieces: u32) -> bool {
    if bytes.len() >= 1000000 || pieces == 0 || pieces > 64 {
        return false;
    }
    match (
        read_in_pieces(rt, alloc, bytes, pieces),
        read_obj(alloc, bytes),
    ) {
        (Ok(first), Ok(second)) => match first.into_obj(alloc) {
            Ok(first) => are_same(&first, &second),
            Err(_) => false,
        },
        (Err(_), Err(ObjFault::Line { .. })) => true,
        _ => false,
    }
}

const TEXTS: &[&[u8]] = &[
    b"",
    b"\n",
    b"v 1 2 3",
    b"v 1 2 3\nv 4 5 6\nf 1 2 1",
    b"v 1 2 3\r\nv 4 5 6\r\nv 7 8 9\r\nf 1 2 3\r\nf -1 -2 -3\r\n",
    b"f 1 2 3\nf 3 2 1\nv 0 0 1\nv 0 0 2\nv 0 0 3\n",
    b"v 0 0 1\nv 0 0 2\nf -1 -2 -1\nv 0 0 3\nf -1 -2 -3\nv 0 0 4\nf -4 -3 -2 -1\nv 0 0 5\nf -5 -1 -2\n",
    b"f 1 1 1\nusemtl b\nf 1 1 1\nv 0 0 0\nusemtl a\nf 1 1 1\n\n\nf 1 1 1\nusemtl b\nf 1 1 1\nusemtl c\nf 1 1 1\nf 1 1 1\n",
    b"mtllib one\nusemtl a\nmtllib two\nmtllib one\nusemtl two\nv 0 0 0\nmtllib three\nf 1 1 1\nmtllib two\nusemtl a\nf 1 1 1",
    b"v 1 2 3\nv 4 5 6\nv 7 8 9\nf 1 2 3\nf 1 2 x\nf 1 2 3\n",
    b"v 1 2 3\nv 4 5 6\nf 1 2 1\nf 1 2 3\n",
    b"v 1 2 3\nf -1 -1 -1\nf -2 -1 -1\nv 4 5 6\n",
    b"v 1 2 3\nv 4 5 6\nusemtl\nf 1 2 1\n",
    b"# a line that is longer than all the others together, so that most pieces have none of it, and more\nv 0 0 0\nf 1 1 1\n",
];

#[test]
fn pieces_give_what_the_whole_gives(rt: HostRuntime) {
    for bytes in TEXTS {
        for pieces in [1, 2, 3, 7] {
            assert!(rt; agree(&rt, rt.alloc(), bytes, pieces));
        }
    }
}

/// A file of more bytes than one thread is to read: points, and faces with names in turn.
fn large(alloc: Global, last: &[u8]) -> Result<Vec<u8>, AllocError> {
    let mut text = Vec::new(alloc);
    for _ in 0..10000 {
        text.extend_from_slice(
            b"v -1.25 0.5 3\nf 1 -1 1\nusemtl red\nf -1 1 1 # again\nusemtl blue\n",
        )?;
    }
    text.extend_from_slice(last)?;
    Ok(text)
}

/// What four threads give of a large file that ends so.
fn read_large<R: Threads + Sync>(
    rt: &R,
    alloc: Global,
    last: &[u8],
) -> Option<Result<FlatObj, ObjFault>> {
    let Ok(text) = large(alloc, last) else {
        return None;
    };
    if text.len() < 600000 || text.len() > 1000000 {
        return None;
    }
    Some(read_obj_on_threads(rt, alloc, text.as_slice(), 4))
}

#[test]
fn four_threads_read_a_large_file(rt: HostRuntime) -> Result<(), Fail> {
    let read = read_large(&rt, rt.alloc(), b"f 10000 9999 1").ok_or("memory")?;
    let flat = read.ok().ok_or("fault")?;
    assert!(rt; flat.points().len() == 10000 && flat.faces().len() == 20001);
    let obj = flat.into_obj(rt.alloc())?;
    let faces = obj.faces.as_slice();
    assert!(rt; faces.len() == 20001);
    assert!(rt; faces[19998].line == 49997 && faces[19998].name == Some(1));
    assert!(rt; faces[19998].corners.as_slice() == [0, 9999, 0].as_slice());
    assert!(rt; faces[20000].line == 50001 && faces[20000].name == Some(1));
    assert!(rt; faces[20000].corners.as_slice() == [9999, 9998, 0].as_slice());
    Ok(())
}

#[test]
fn fault_of_a_large_file_is_found(rt: HostRuntime) {
    match read_large(&rt, rt.alloc(), b"f 10001 1 1") {
        Some(Err(fault)) => assert!(rt;
            fault
                == ObjFault::Line {
                    line: 50001,
                    why: Why::BadIndex
                }
        ),
        _ => assert!(rt; false),
    }
}
