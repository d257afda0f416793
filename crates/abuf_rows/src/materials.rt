// Names, libraries and materials.
use crate::command::scenes_answer;
use std::test::Fail;

/// Where a name or a library is refused, and where it is found.
#[test]
fn names_and_libraries(rt: HostRuntime) -> Result<(), Fail> {
    let table = "
# a library, and a material, without a name
CORNERS f 1 2 3; mtllib; | 3 line 5: no name
CORNERS f 1 2 3; usemtl \t\r; | 3 line 5: no name
# a material of no library
CORNERS usemtl blue; f 1 2 3; | 3 line 5: unknown material
# a colour before any material
mtllib a.mtl; v -4 4 0; v 4 4 0; v -4 -4 0; f 1 2 3; | 4 library 1 line 1: no material | a.mtl = Kd 1 1 1;
# a library that is missing
mtllib a.mtl; | 4 library 1 missing
# the first library is read before the second is fetched
TWO_LIBRARIES | 4 library 1 line 1: no material | a.mtl = d 1;
# a library by a name with blanks
mtllib  my colours.mtl \r; v -4 4 0; v 4 4 0; v -4 -4 0; f 1 2 3; | 0 WWW. WW.. W... .... | my colours.mtl
# a '#' within a name
mtllib a #1.mtl; v -4 4 0; v 4 4 0; v -4 -4 0; usemtl red #2; f 1 2 3; | 0 rrr. rr.. r... .... | a #1.mtl = newmtl red #2; Kd 1 0 0;
# 17 libraries
mtllib 0; mtllib 1; mtllib 2; mtllib 3; mtllib 4; mtllib 5; mtllib 6; mtllib 7; mtllib 8; mtllib 9; mtllib 10; mtllib 11; mtllib 12; mtllib 13; mtllib 14; mtllib 15; mtllib 16; | 3 line 17: too many libraries
";
    scenes_answer(&rt, rt.alloc(), "render --size 4x4", table)
}

/// The later library has the last word on a name.
#[test]
fn materials_of_two_libraries(rt: HostRuntime) -> Result<(), Fail> {
    let table = "
# the last material of the name holds, and begins anew
NAMED | 0 G | a.mtl = newmtl m; Kd 1 0 0; | b.mtl = newmtl m; Kd 0 1 0;
NAMED | 0 W | a.mtl = newmtl m; Kd 1 0 0; | b.mtl = newmtl m;
# one number stands for three
NAMED | 0 h | a.mtl = newmtl m; Kd 1 0 0; | b.mtl = newmtl m; Kd 0.5;
# a colour beyond 1 or below 0 is clamped
NAMED | 0 w | a.mtl = newmtl m; Kd 1 0 0; | b.mtl = newmtl m; Kd 7 -1 0.5 9;
# numbers that are missing or can't be read
NAMED | 4 library 1 line 2: bad number | a.mtl = newmtl m; Kd 1 1; | b.mtl
NAMED | 4 library 1 line 2: bad number | a.mtl = newmtl m; Kd 1 1 #1; | b.mtl
NAMED | 4 library 1 line 2: bad number | a.mtl = newmtl m; Kd; | b.mtl
NAMED | 4 library 1 line 2: bad number | a.mtl = newmtl m; Kd spectral x; | b.mtl
NAMED | 4 library 1 line 2: bad number | a.mtl = newmtl m; d; | b.mtl
NAMED | 4 library 1 line 2: bad number | a.mtl = newmtl m; d -halo 0.5; | b.mtl
NAMED | 4 library 1 line 2: bad number | a.mtl = newmtl m; d x; | b.mtl
# a number before a comment
NAMED | 0 W | a.mtl = newmtl m; Kd 1 # 2 3; | b.mtl
";
    scenes_answer(&rt, rt.alloc(), "render --size 1x1", table)
}
