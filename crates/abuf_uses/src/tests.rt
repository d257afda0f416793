// Each caller, with what it must give.
use crate::{
    NoImage, carry_out, draw_at_once, image_of, lists_of, lowest_layers, masks_of, render, seen_by,
};
use abuf_num::{List, Paint};
use abuf_picture::Target;
use abuf_raster::{Pattern, Region, ScreenTri};
use abuf_view::{Camera, Projected};
use std::alloc::Global;
use std::test::Fail;

/// The upper half of a square of 4 by 4 pixels. The centres of the pixels on its diagonal lie on its right edge.
#[test]
fn half_a_square_is_covered(rt: HostRuntime) -> Result<(), Fail> {
    let upper = ScreenTri::new([0, 1024, 0], [0, 0, 1024], [0; 3]).ok_or("upper")?;
    let table = masks_of(rt.alloc(), &upper, Region::whole_image(4, 4), Pattern::One)?;
    assert!(rt; table.as_slice() == [1, 1, 1, 0, 1, 1, 0, 0, 1, 0, 0, 0, 0, 0, 0, 0].as_slice());
    Ok(())
}

/// Pixel 0 has an item of each thread, pixel 1 one, and pixel 2 none.
#[test]
fn two_threads_draw_at_once(rt: HostRuntime) -> Result<(), Fail> {
    let alloc = rt.alloc();
    let closed = draw_at_once(&rt, alloc, 3, &[(0, 5), (1, 6)], &[(0, 7)])?;
    let lists = lists_of(alloc, &closed)?;
    let [both, one, none] = lists.as_slice() else {
        return Err("three lists".into());
    };
    let is_either = both.as_slice() == [7, 5].as_slice() || both.as_slice() == [5, 7].as_slice();
    assert!(rt; is_either && one.as_slice() == [6].as_slice() && none.as_slice().is_empty());
    assert!(rt; closed.full().is_none());
    Ok(())
}

/// A square that the image just shows: its upper half is white, its lower half red.
const SCENE: &[u8] =
    b"mtllib m\nv -4 4 0\nv 4 4 0\nv 4 -4 0\nv -4 -4 0\nf 1 2 4\nusemtl red\nf 2 3 4\n";

const LIBRARY: &[u8] = b"newmtl red\nKd 1 0 0\n";

const HEADER: &[u8] = b"P7\nWIDTH 2\nHEIGHT 2\nDEPTH 3\nMAXVAL 255\nTUPLTYPE RGB\nENDHDR\n";

/// White, and then red three times: the diagonal belongs to the lower half.
const PIXELS: &[u8] = &[255, 255, 255, 255, 0, 0, 255, 0, 0, 255, 0, 0];

/// Whether these bytes are the image of the square.
fn is_square(bytes: &[u8]) -> bool {
    bytes.starts_with(HEADER)
        && bytes.ends_with(PIXELS)
        && bytes.len() == HEADER.len() + PIXELS.len()
}

#[test]
fn a_square_is_rendered(rt: HostRuntime) -> Result<(), Fail> {
    let alloc = rt.alloc();
    let camera = Camera::new(2, 2, [1, 0, 0, 0], [0, 0, -262144], 65536, 8192).ok_or("camera")?;
    match render(&rt, alloc, SCENE, LIBRARY, &camera, Pattern::One) {
        Ok(bytes) => assert!(rt; is_square(bytes.as_slice())),
        Err(_) => assert!(rt; false),
    }
    match seen_by(&rt, alloc, SCENE, b"newmtl Red", &camera) {
        Err(NoImage::Material(_)) => {}
        _ => assert!(rt; false),
    }
    Ok(())
}

#[test]
fn a_command_line_gives_the_square(rt: HostRuntime) -> Result<(), Fail> {
    let alloc = rt.alloc();
    let mut words = Vec::new(alloc);
    for word in ["render", "--size", "2x2"] {
        words.push(String::from_str(alloc, word)?)?;
    }
    let mut files = List::new(alloc);
    let name = List::from_vec(b"m".as_slice().to_vec(alloc)?);
    files.push((name, List::from_vec(LIBRARY.to_vec(alloc)?)))?;
    let scene = List::from_vec(SCENE.to_vec(alloc)?);
    let answer = carry_out(&rt, alloc, words.as_slice(), scene, files)?;
    assert_eq!(rt; answer.status, 0);
    assert!(rt; is_square(answer.output.taken()) && answer.messages.taken().is_empty());
    Ok(())
}

const RED: Paint = Paint {
    colour: [65535, 0, 0],
    alpha: 32768,
};

const GREEN: Paint = Paint {
    colour: [0, 65535, 0],
    alpha: 32768,
};

/// Two films over one pixel. The green one is nearer, and comes first in the lists.
fn films(alloc: Global) -> Result<Projected, Fail> {
    let near = ScreenTri::new([0, 1024, 0], [0, 0, 1024], [20; 3]).ok_or("near")?;
    let far = ScreenTri::new([0, 1024, 0], [0, 0, 1024], [10; 3]).ok_or("far")?;
    let mut tris = List::new(alloc);
    tris.push(near)?;
    tris.push(far)?;
    let mut paints = List::new(alloc);
    paints.push(GREEN)?;
    paints.push(RED)?;
    Ok(Projected { tris, paints })
}

#[test]
fn the_far_film_lies_lowest(rt: HostRuntime) -> Result<(), Fail> {
    let alloc = rt.alloc();
    let projected = films(alloc)?;
    let pixel = Region::whole_image(1, 1);
    let one = lowest_layers(alloc, &projected, pixel, Pattern::One, [0; 3], 1)?;
    assert_eq!(rt; one.as_slice()[0].channels, [32768, 0, 0]);
    let all = lowest_layers(alloc, &projected, pixel, Pattern::One, [0; 3], 9)?;
    assert_eq!(rt; all.as_slice()[0].channels, [16384, 32768, 0]);
    Ok(())
}

/// One node is too few for two films.
#[test]
fn a_full_pool_is_told(rt: HostRuntime) -> Result<(), Fail> {
    let alloc = rt.alloc();
    let projected = films(alloc)?;
    let target = Target {
        region: Region::whole_image(1, 1),
        pattern: Pattern::One,
        background: [0; 3],
        nodes: 1,
        threads: 1,
    };
    match image_of(&rt, alloc, &projected, &target) {
        Err(NoImage::Full(full)) => assert!(rt; full.fragments == 2 && full.nodes == 1),
        _ => assert!(rt; false),
    }
    Ok(())
}
