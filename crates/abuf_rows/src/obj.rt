// Faces and points of a scene.
use crate::command::scenes_answer;
use std::test::Fail;

/// What a face may name, and the first faulty line.
#[test]
fn faces(rt: HostRuntime) -> Result<(), Fail> {
    let table = "
CORNERS f 1//1 2/5/1 -1; | 0 WWW. WW.. W... ....
CORNERS f 1/ 2/0 3//; | 0 WWW. WW.. W... ....
CORNERS f 1 2 3 # 4; | 0 WWW. WW.. W... ....
CORNERS f -3 -2 -1; | 0 WWW. WW.. W... ....
CORNERS f 0 1 2; | 3 line 4: bad index
CORNERS f 1 2 9; | 3 line 4: bad index
CORNERS f 1 2 4; | 3 line 4: bad index
CORNERS f -4 -3 -1; | 3 line 4: bad index
CORNERS f 00000000001 2 3; | 3 line 4: bad index
CORNERS f 1 2 3/x; | 3 line 4: bad index
CORNERS f 1 2 3/1/1/1; | 3 line 4: bad index
CORNERS f 1 2 +3; | 3 line 4: bad index
CORNERS f 1 2 3 \\; | 3 line 4: bad index
CORNERS f 1 2 -0; | 3 line 4: bad index
CORNERS f 1 2 9; curv 0 1 1 2; | 3 line 5: unknown keyword
f 1 2 3; v -4 4 0; v 4 4 0; v -4 -4 0; | 0 WWW. WW.. W... ....
CORNERS f 1 2 3; foo; | 0 WWW. WW.. W... ....
CORNERS f 1 2 3; \u{feff}v 1 2 3; | 3 line 5: unknown keyword
CORNERS f 1 2; | 3 line 4: too few elements
CORNERS f 1 \\; 2 3; | 3 line 4: too few elements
";
    scenes_answer(&rt, rt.alloc(), "render --size 4x4", table)
}

/// How a coordinate is written.
#[test]
fn points(rt: HostRuntime) -> Result<(), Fail> {
    let table = "
v 1 2; v -4 4 0; v 4 4 0; v -4 -4 0; f 1 2 3; | 3 line 1: bad number
v 1 2 #3; | 3 line 1: bad number
v -4 4 0 x; v 4 4 0; v -4 -4 0; f 1 2 3; | 0 WWW. WW.. W... ....
v nan 0 0; | 3 line 1: bad number
v inf 0 0; | 3 line 1: bad number
v 1e 0 0; | 3 line 1: bad number
v 32768 0 0; | 3 line 1: bad number
v -32768 0 0; | 3 line 1: bad number
v 0x1 0 0; | 3 line 1: bad number
v . 0 0; | 3 line 1: bad number
v 1e0001 0 0; | 3 line 1: bad number
v +-1 0 0; | 3 line 1: bad number
v .5 0 0; | 0 .... .... .... ....
v -1. 0 0; | 0 .... .... .... ....
v 1e-7 0 0; | 0 .... .... .... ....
v 32767.99999 0 0; | 0 .... .... .... ....
v +.5e1 0 0; | 0 .... .... .... ....
v 1e-999 0 0; | 0 .... .... .... ....
v 0.0000012345678901234567 0 0; | 0 .... .... .... ....
v -.4e1 4 0; v 400e-2 4 0; v -4 -4.000000 0; f 1 2 3; | 0 WWW. WW.. W... ....
v 0.5 0 0; | 0 .... .... .... ....
";
    scenes_answer(&rt, rt.alloc(), "render --size 4x4", table)
}
