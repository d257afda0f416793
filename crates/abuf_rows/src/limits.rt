// Images and scenes at the limits.
use crate::command::{Outside, all_write, carry_out, carry_out_over, is_answer};
use crate::scenes::UPPER;
use abuf_num::List;
use std::test::Fail;

/// A triangle of the greatest size, on an image of the greatest height: all of its 4096 pixels are white, at the
/// depth key of the near plane.
#[test]
fn greatest_triangle(rt: HostRuntime) -> Result<(), Fail> {
    let alloc = rt.alloc();
    let words = "render --size 1x4096 --focal 16 --near 0.0625";
    let outcome = carry_out(&rt, alloc, words, "GREATEST", "", Outside::steady(alloc))?;
    assert!(rt; outcome.status == 0);
    let Some((header, values)) = outcome.out.taken().split_at_checked(62) else {
        panic!(rt; "no header")
    };
    let expected = b"P7\nWIDTH 1\nHEIGHT 4096\nDEPTH 3\nMAXVAL 255\nTUPLTYPE RGB\nENDHDR\n";
    assert!(rt; header == expected.as_slice());
    assert!(rt; values.len() == 12288 && values.iter().all(|&value| value == 255));
    let table = "
pick 0,0 --size 1x4096 --focal 16 --near 0.0625 | GREATEST | fragments 1; prim 0 mask 1; sample 0 prim 0 depth 16777215;
pick 0,4095 --size 1x4096 --focal 16 --near 0.0625 | GREATEST | fragments 1; prim 0 mask 1; sample 0 prim 0 depth 16777215;
";
    all_write(&rt, alloc, table)
}

/// Half red over white, with two bytes a value.
#[test]
fn two_bytes_a_value(rt: HostRuntime) -> Result<(), Fail> {
    let alloc = rt.alloc();
    let held = "a.mtl = newmtl red; Kd 1 0 0; d 0.5;";
    let words = "render --size 1x1 --background 1,1,1 --maxval 65535";
    let outcome = carry_out(&rt, alloc, words, "RED", held, Outside::steady(alloc))?;
    assert!(rt; outcome.status == 0);
    let expected =
        b"P7\nWIDTH 1\nHEIGHT 1\nDEPTH 3\nMAXVAL 65535\nTUPLTYPE RGB\nENDHDR\n\xff\xff\x7f\xff\x7f\xff";
    assert!(rt; outcome.out.taken() == expected.as_slice());
    Ok(())
}

/// A face has at most 1024 elements.
#[test]
fn elements_of_a_face(rt: HostRuntime) -> Result<(), Fail> {
    let alloc = rt.alloc();
    for (count, answer) in [
        (1024, "0 .... .... .... ...."),
        (1025, "3 line 4: too many elements"),
    ] {
        let mut scene = b"v -4 4 0\nv 4 4 0\nv -4 -4 0\nf".to_vec(alloc)?;
        for _ in 0..count {
            scene.extend_from_slice(b" 1")?;
        }
        let scene = List::from_vec(scene);
        let none = List::new(alloc);
        let steady = Outside::steady(alloc);
        let outcome = carry_out_over(&rt, alloc, "render --size 4x4", scene, none, steady)?;
        assert!(rt; is_answer(alloc, &outcome, answer)?, "{count} elements");
    }
    Ok(())
}

/// What a scene answers that ends after so many bytes of `UPPER`.
fn answer_to(length: usize) -> &'static str {
    match length {
        0 | 8 | 9 | 16 | 17 | 26 | 27 => "0 .... .... .... ....",
        34 | 35 => "0 WWW. WW.. W... ....",
        28..=33 => "3 line 4: too few elements",
        1..=7 => "3 line 1: bad number",
        10..=15 => "3 line 2: bad number",
        _ => "3 line 3: bad number",
    }
}

/// A scene that ends early.
#[test]
fn starts_of_a_scene(rt: HostRuntime) -> Result<(), Fail> {
    let alloc = rt.alloc();
    for length in 0..36 {
        let Some(start) = UPPER.get(..length) else {
            panic!(rt; "the scene has 35 bytes")
        };
        let scene = List::from_vec(start.to_vec(alloc)?);
        let none = List::new(alloc);
        let steady = Outside::steady(alloc);
        let outcome = carry_out_over(&rt, alloc, "render --size 4x4", scene, none, steady)?;
        assert!(rt;
            is_answer(alloc, &outcome, answer_to(length))?,
            "{length} bytes"
        );
    }
    Ok(())
}
