// The top-left rule, and the pool of nodes.
use crate::command::{all_answer, words_answer};
use std::test::Fail;

/// An edge through centres covers them on the left and on the top side alone.
#[test]
fn edges_through_centres(rt: HostRuntime) -> Result<(), Fail> {
    let table = "
# a right edge through centres covers none of them, and a left one covers them
render --size 4x4 | UPPER | 0 WWW. WW.. W... ....
render --size 4x4 | LOWER | 0 ...W ..WW .WWW WWWW
# each centre on a shared edge is covered once
render --size 4x4 | SQUARE | 0 WWWW WWWW WWWW WWWW
# blank lines and comments change nothing
render --size 4x4 | ; # x; v -4 4 0; v 4 4 0; v -4 -4 0; f 1 2 3; | 0 WWW. WW.. W... ....
# an empty scene is background
render --size 1x1 |  | 0 .
# a repeated corner has no area, and so no fragment
render --size 4x4 | CORNERS f 1 2 2; | 0 .... .... .... ....
render --size 4x4 --nodes 1 | CORNERS f 1 2 2; | 0 .... .... .... ....
";
    all_answer(&rt, rt.alloc(), table)
}

/// The pool is full where there are more fragments than nodes.
#[test]
fn pool_of_nodes(rt: HostRuntime) -> Result<(), Fail> {
    let table = "
# just large enough, and one too small
render --size 4x4 --nodes 16 | SQUARE | 0 WWWW WWWW WWWW WWWW
render --size 4x4 --nodes 15 | SQUARE | 5 pool full: 16 fragments, 15 nodes
# on an image that isn't cut into whole tiles
render --size 9x9 --nodes 81 | SQUARE | 0 WWWWWWWWW WWWWWWWWW WWWWWWWWW WWWWWWWWW WWWWWWWWW WWWWWWWWW WWWWWWWWW WWWWWWWWW WWWWWWWWW
render --size 9x9 --nodes 80 | SQUARE | 5 pool full: 81 fragments, 80 nodes
# an invisible face has a fragment, and two have two
render --size 1x1 --background 1,1,1 --nodes 1 | RED | 0 W | a.mtl = newmtl red; d 0;
render --size 1x1 --background 1,1,1 --nodes 1 | RED f 1 2 3; | 5 pool full: 2 fragments, 1 nodes | a.mtl = newmtl red; d 0;
";
    all_answer(&rt, rt.alloc(), table)
}

/// The bytes and the refusals are the same on every number of threads.
#[test]
fn overlapping_faces_on_threads(rt: HostRuntime) -> Result<(), Fail> {
    let table = "
render --size 4x4 --threads 1 | 0 WWWW WWWW WWWW WWWW
render --size 4x4 --threads 1 --nodes 26 | 0 WWWW WWWW WWWW WWWW
render --size 4x4 --threads 1 --nodes 25 | 5 pool full: 26 fragments, 25 nodes
render --size 4x4 --threads 2 | 0 WWWW WWWW WWWW WWWW
render --size 4x4 --threads 2 --nodes 26 | 0 WWWW WWWW WWWW WWWW
render --size 4x4 --threads 2 --nodes 25 | 5 pool full: 26 fragments, 25 nodes
render --size 4x4 --threads 7 | 0 WWWW WWWW WWWW WWWW
render --size 4x4 --threads 7 --nodes 26 | 0 WWWW WWWW WWWW WWWW
render --size 4x4 --threads 7 --nodes 25 | 5 pool full: 26 fragments, 25 nodes
render --size 4x4 --threads 64 | 0 WWWW WWWW WWWW WWWW
render --size 4x4 --threads 64 --nodes 26 | 0 WWWW WWWW WWWW WWWW
render --size 4x4 --threads 64 --nodes 25 | 5 pool full: 26 fragments, 25 nodes
";
    words_answer(&rt, rt.alloc(), "OVERLAPPING", table)
}
