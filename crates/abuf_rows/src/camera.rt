// The near plane, the turn and the shift.
use crate::command::all_answer;
use std::test::Fail;

/// What lies behind the near plane is cut off.
#[test]
fn cut_by_the_near_plane(rt: HostRuntime) -> Result<(), Fail> {
    let table = "
# one corner behind the near plane; its fragments are eight
render --size 4x4 | ONE_BEHIND | 0 WWWW WWWW .... ....
render --size 4x4 --nodes 7 | ONE_BEHIND | 5 pool full: 8 fragments, 7 nodes
# two corners behind it; its fragments are four
render --size 4x4 | TWO_BEHIND | 0 WWW. .W.. .... ....
render --size 4x4 --nodes 3 | TWO_BEHIND | 5 pool full: 4 fragments, 3 nodes
# all corners behind it
render --size 4x4 | v 0 0 5; v -1 1 5; v 1 1 5; f 1 2 3; | 0 .... .... .... ....
# a corner of the triangle is cut off
render --size 4x4 | v -4 4 0; v 4 4 4; v -4 -4 0; f 1 2 3; | 0 WWW. WW.. W... ....
# a shared edge that is cut covers each centre once; the fragments are six
render --size 3x4 --nodes 6 | SHARED_CUT | 0 WWW WWW ... ...
render --size 3x4 --nodes 5 | SHARED_CUT | 5 pool full: 6 fragments, 5 nodes
";
    all_answer(&rt, rt.alloc(), table)
}

/// The camera turns and moves.
#[test]
fn turned_and_moved(rt: HostRuntime) -> Result<(), Fail> {
    let table = "
# a half turn about the vertical axis
render --size 4x4 --turn 0,0,1,0 | UPPER | 0 WWWW .WWW ..WW ...W
# a factor of the turn changes nothing
render --size 4x4 --turn 2,0,0,0 | UPPER | 0 WWW. WW.. W... ....
# the turn with all parts at their limit
render --size 4x4 --turn=-1024,-1024,-1024,-1024 | v 4 0 -4; v 4 0 4; v -4 0 -4; f 1 2 3; | 0 WWW. WW.. W... ....
# as far ahead and as far behind as can be
render --size 4x4 --move=0,0,-32767.99999 | UPPER | 0 .... .... .... ....
render --size 4x4 --move=0,0,32767.99999 | UPPER | 0 .... .... .... ....
";
    all_answer(&rt, rt.alloc(), table)
}
