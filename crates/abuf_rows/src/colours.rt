// Compositing, and the samples of a pixel.
use crate::command::all_answer;
use std::test::Fail;

/// From the nearest fragment to the background, sample by sample.
#[test]
fn composited_colours(rt: HostRuntime) -> Result<(), Fail> {
    let table = "
# half red over white, and over black
render --size 1x1 --background 1,1,1 | RED | 0 p | a.mtl = newmtl red; Kd 1 0 0; d 0.5;
render --size 1x1 | RED | 0 d | a.mtl = newmtl red; Kd 1 0 0; d 0.5;
# at one depth the later face is on top
render --size 1x1 | COVER usemtl red; f 1 2 3; usemtl green; f 1 2 3; | 0 u | a.mtl = FILMS
render --size 1x1 | COVER usemtl green; f 1 2 3; usemtl red; f 1 2 3; | 0 v | a.mtl = FILMS
# half of the samples are covered
render --size 1x1 --samples 2 | LEFT_HALF | 0 h
render --size 1x1 --samples 4 | LEFT_HALF | 0 h
render --size 1x1 --samples 8 | LEFT_HALF | 0 h
render --size 1x1 --samples 16 | LEFT_HALF | 0 h
";
    all_answer(&rt, rt.alloc(), table)
}

/// In each sample the face that is nearer there is seen.
#[test]
fn faces_that_cross_inside_a_pixel(rt: HostRuntime) -> Result<(), Fail> {
    let table = "
render --size 1x1 | CROSSING | 0 r | x.mtl = OPAQUE
render --size 1x1 --samples 2 | CROSSING | 0 y | x.mtl = OPAQUE
render --size 1x1 --samples 2 --threads 1 | CROSSING | 0 y | x.mtl = OPAQUE
render --size 1x1 --samples 2 --threads 64 | CROSSING | 0 y | x.mtl = OPAQUE
render --size 1x1 --samples 2 --bands 1 | CROSSING | 0 y | x.mtl = OPAQUE
render --size 1x1 --samples 2 --peel | CROSSING | 0 y | x.mtl = OPAQUE
";
    all_answer(&rt, rt.alloc(), table)
}
