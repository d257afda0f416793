// Whole files: each refusal, what is passed over, and what a file gives.
ghost use Rattle.std.specs.Prelude.{◌<◌, length};

use abuf_obj::{ObjFault, Why, read_obj};
use std::alloc::Global;

fn fault(alloc: Global, bytes: &[u8]) -> Option<ObjFault>
    requires { length bytes.now < 1000 }
{
    match read_obj(alloc, bytes) {
        Ok(_) => None,
        Err(fault) => Some(fault),
    }
}

const REFUSED: &[(&[u8], u32, Why)] = &[
    (b"\n\ncstype bezier", 3, Why::Keyword),
    (b"deg 3", 1, Why::Keyword),
    (b"bmat u", 1, Why::Keyword),
    (b"step 1", 1, Why::Keyword),
    (b"curv 0 1 1 2", 1, Why::Keyword),
    (b"curv2 1", 1, Why::Keyword),
    (b"surf", 1, Why::Keyword),
    (b"parm u", 1, Why::Keyword),
    (b"trim", 1, Why::Keyword),
    (b"hole", 1, Why::Keyword),
    (b"scrv", 1, Why::Keyword),
    (b"sp", 1, Why::Keyword),
    (b"end\r", 1, Why::Keyword),
    (b"con", 1, Why::Keyword),
    (b"call a.obj", 1, Why::Keyword),
    (b"\xef\xbb\xbfv 0 0 0", 1, Why::Keyword),
    (b"\0", 1, Why::Keyword),
    (b"vt\xff 0 0", 1, Why::Keyword),
    (b"v 1 2", 1, Why::BadNumber),
    (b"v 1 2 #3", 1, Why::BadNumber),
    (b"v 1 2 nan", 1, Why::BadNumber),
    (b"v 1 2 32768", 1, Why::BadNumber),
    (b"v 0 0 0\nf 1 1 # 1", 2, Why::TooFewElements),
    (b"f \\", 1, Why::TooFewElements),
    (b"v 0 0 0\nf 1 1 0", 2, Why::BadIndex),
    (b"v 0 0 0\nf 1 1 -2\nv 0 0 0", 2, Why::BadIndex),
    (b"v 0 0 0\nf 1 1 -0", 2, Why::BadIndex),
    (b"v 0 0 0\nf 1 1 +1", 2, Why::BadIndex),
    (b"v 0 0 0\nf 1 1 1/x", 2, Why::BadIndex),
    (b"v 0 0 0\nf 1 1 1///", 2, Why::BadIndex),
    (b"v 0 0 0\nf 1 1 12345678901", 2, Why::BadIndex),
    (b"f 1 1 2\nv 0 0 0\nf 1 1 3", 1, Why::BadIndex),
    (b"v 0 0 0\nf 1 1 4294967297", 2, Why::BadIndex),
    (b"v 0 0 0\nf 1 1 9999999999\nhole", 3, Why::Keyword),
    (b"usemtl \t\r", 1, Why::NoName),
    (b"mtllib", 1, Why::NoName),
];

#[test]
fn each_refusal_names_its_line_and_cause(rt: HostRuntime) {
    let alloc = rt.alloc();
    for (bytes, line, why) in REFUSED {
        assert!(rt; bytes.len() < 1000);
        assert!(rt;
            fault(alloc, bytes)
                == Some(ObjFault::Line {
                    line: *line,
                    why: *why
                })
        );
    }
}

const ACCEPTED: &[&[u8]] = &[
    b"",
    b"\r\r\n \t\n# \xff\0\n #f 0\n",
    b"vt 0\nvn 0 0\nvp\no x\ng\ns off\nl 1 2\np 9\nfoo \xff\0 1\nV 1\nF 0",
    b"v .5 -1. 1e-7 junk\rv 1",
    b"f 1 2 3\nv 0 0 0\nv 0 0 0\nv 0 0 0",
    b"v 0 0 0\nf 1/ 1//0 -1/0000000000/-7",
];

#[test]
fn other_lines_are_passed_over(rt: HostRuntime) {
    let alloc = rt.alloc();
    for bytes in ACCEPTED {
        assert!(rt; bytes.len() < 1000);
        assert!(rt; fault(alloc, bytes) == None);
    }
}

#[test]
fn a_file_gives_its_scene(rt: HostRuntime) {
    let bytes =
        b"mtllib a b.mtl # x\r\nv -4 4 0\r\nf 1 2 -1 #0\r\nusemtl red\nusemtl blue\nusemtl red\nv 0 .5 1 9\nf -1 1//1 2/5/1\n";
    match read_obj(rt.alloc(), bytes) {
        Ok(obj) => {
            assert!(rt;
                obj.points.as_slice() == [[-262144, 262144, 0], [0, 32768, 65536]].as_slice()
            );
            assert!(rt; obj.names.as_slice().len() == 2 && obj.libraries.as_slice().len() == 1);
            assert!(rt; obj.names.as_slice()[1].as_slice() == b"blue".as_slice());
            assert!(rt; obj.libraries.as_slice()[0].as_slice() == b"a b.mtl # x".as_slice());
            assert!(rt; obj.faces.as_slice().len() == 2);
            let (first, second) = (&obj.faces.as_slice()[0], &obj.faces.as_slice()[1]);
            assert!(rt; first.line == 3 && first.name == None);
            assert!(rt; first.corners.as_slice() == [0, 1, 0].as_slice());
            assert!(rt; second.line == 8 && second.name == Some(0));
            assert!(rt; second.corners.as_slice() == [1, 0, 1].as_slice());
        }
        Err(_) => assert!(rt; false),
    }
}
