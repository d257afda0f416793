// Libraries: what they give their materials, and the refusals of each kind of line.
use abuf_mtl::{Materials, MtlFault, MtlWhy, read_mtl};
use abuf_num::Paint;

fn paint(red: u16, green: u16, blue: u16, alpha: u16) -> Paint {
    Paint {
        colour: [red, green, blue],
        alpha,
    }
}

#[test]
fn the_last_lines_of_a_name_hold(rt: HostRuntime) {
    let alloc = rt.alloc();
    let mut materials = Materials::new(alloc);
    let first = b"# x\r\nnewmtl red\nKd 0 1 0\nKd 1 0 0 #1\nd 0.1\nd 0.5\nnewmtl dark  sea\nNs 5";
    assert!(rt; read_mtl(alloc, first, &mut materials) == Ok(()));
    assert!(rt; materials.find(b"red") == Some(paint(65535, 0, 0, 32768)));
    assert!(rt; materials.find(b"dark  sea") == Some(paint(65535, 65535, 65535, 65535)));
    assert!(rt; materials.find(b"sea") == None);
    let second = b"newmtl red\nKd -1 2 .5 junk\nnewmtl red\nKd 0.5\nd 7 1\n";
    assert!(rt; read_mtl(alloc, second, &mut materials) == Ok(()));
    assert!(rt; materials.find(b"red") == Some(paint(32768, 32768, 32768, 65535)));
    assert!(rt; read_mtl(alloc, b"newmtl red\nd -1", &mut materials) == Ok(()));
    assert!(rt; materials.find(b"red") == Some(paint(65535, 65535, 65535, 0)));
}

#[test]
fn a_refusal_names_its_line_and_changes_nothing(rt: HostRuntime) {
    let alloc = rt.alloc();
    let mut materials = Materials::new(alloc);
    assert!(rt; read_mtl(alloc, b"newmtl red\nKd 1 0 0", &mut materials) == Ok(()));
    let rows: [(&[u8], u32, MtlWhy); 10] = [
        (b"newmtl \t\r", 1, MtlWhy::NoName),
        (b"Kd 1 1 1", 1, MtlWhy::NoMaterial),
        (b"\nd", 2, MtlWhy::NoMaterial),
        (b"newmtl red\nKd", 2, MtlWhy::BadNumber),
        (b"newmtl red\nKd 1 1 #1", 2, MtlWhy::BadNumber),
        (b"newmtl red\nKd spectral f 1", 2, MtlWhy::BadNumber),
        (b"newmtl red\nKd 0 0 32769", 2, MtlWhy::BadNumber),
        (b"newmtl red\nd # 1", 2, MtlWhy::BadNumber),
        (b"newmtl red\nd -halo 1", 2, MtlWhy::BadNumber),
        (b"newmtl red\nd 0\nd x\nnewmtl", 3, MtlWhy::BadNumber),
    ];
    for (bytes, line, why) in rows {
        assert!(rt; read_mtl(alloc, bytes, &mut materials) == Err(MtlFault::Line { line, why }));
        assert!(rt; materials.find(b"red") == Some(paint(65535, 0, 0, 65535)));
    }
}

/// Reading a library where memory runs out changes no material, whichever allocation is refused.
#[test]
fn refused_memory_changes_nothing(rt: HostRuntime) {
    let alloc = rt.alloc();
    let mut materials = Materials::new(alloc);
    let first = read_mtl(alloc, b"newmtl red\nKd 1 0 0\nnewmtl sea", &mut materials);
    let (red, sea) = (materials.find(b"red"), materials.find(b"sea"));
    if first == Ok(()) {
        assert!(rt; red == Some(paint(65535, 0, 0, 65535)));
        assert!(rt; sea == Some(paint(65535, 65535, 65535, 65535)));
    } else {
        assert!(rt; first == Err(MtlFault::Memory) && red == None && sea == None);
    }
    let second = read_mtl(
        alloc,
        b"newmtl red\nKd 0 1 0\nnewmtl blue\nd 0",
        &mut materials,
    );
    assert!(rt; materials.find(b"sea") == sea);
    if second == Ok(()) {
        assert!(rt; materials.find(b"red") == Some(paint(0, 65535, 0, 65535)));
        assert!(rt; materials.find(b"blue") == Some(paint(65535, 65535, 65535, 0)));
    } else {
        assert!(rt; second == Err(MtlFault::Memory));
        assert!(rt; materials.find(b"red") == red && materials.find(b"blue") == None);
    }
}
