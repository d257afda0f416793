// Images drawn band by band, and peeled.
use crate::command::{all_answer, words_answer};
use std::test::Fail;

/// Both halves of the square have four fragments in each row together; the lower half alone has one in the first row, and one
/// more in each next row.
#[test]
fn bands_of_a_square(rt: HostRuntime) -> Result<(), Fail> {
    let alloc = rt.alloc();
    let square = "
render --size 4x4 --bands 4 --nodes 4 | 0 WWWW WWWW WWWW WWWW
render --size 4x4 --bands 3 --nodes 8 --threads 7 | 0 WWWW WWWW WWWW WWWW
render --size 4x4 --bands 4 --nodes 3 | 5 band 1 full: 4 fragments, 3 nodes
render --size 4x4 --bands 3 --nodes 7 | 5 band 3 full: 8 fragments, 7 nodes
render --size 4x4 --bands 1 --nodes 15 | 5 band 1 full: 16 fragments, 15 nodes
render --size 4x4 --bands 5 | 2 bad value: bands
render --size 4x4 --bands 0 | 2 bad value: bands
render --size 4x4 --bands 00001 | 2 bad value: bands
render --size 4x4 --maxval 1 --bands 0 | 2 bad value: maxval
pick 0,0 --size 4x4 --bands 1 | 2 words not understood
demo 1 --size 4x4 --bands 1 | 2 words not understood
";
    words_answer(&rt, alloc, "SQUARE", square)?;
    let lower = "
render --size 4x4 --bands 4 --nodes 3 | 5 band 4 full: 4 fragments, 3 nodes
";
    words_answer(&rt, alloc, "LOWER", lower)
}

/// A layer needs no node.
#[test]
fn layers_of_a_square(rt: HostRuntime) -> Result<(), Fail> {
    let table = "
render --size 4x4 --peel --nodes 1 | 0 WWWW WWWW WWWW WWWW
render --size 4x4 --peel --bands 2 | 2 bad value: bands
render --size 4x4 --peel --bands=x | 2 bad value: bands
render --size 4x4 --peel=1 | 2 words not understood
pick 0,0 --size 4x4 --peel | 2 words not understood
demo 1 --size 4x4 --peel | 2 words not understood
";
    words_answer(&rt, rt.alloc(), "SQUARE", table)
}

/// At one depth the later face is on top, in bands and in layers as in a frame.
#[test]
fn films_in_bands_and_layers(rt: HostRuntime) -> Result<(), Fail> {
    let table = "
render --size 1x1 --bands 1 --nodes 2 | COVER usemtl red; f 1 2 3; usemtl green; f 1 2 3; | 0 u | a.mtl = FILMS
render --size 1x1 --peel | COVER usemtl red; f 1 2 3; usemtl green; f 1 2 3; | 0 u | a.mtl = FILMS
";
    all_answer(&rt, rt.alloc(), table)
}
