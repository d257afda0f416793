// The demonstration scene.
ghost use Rattle.std.specs.Prelude.{◌≡◌, ◌≤◌, ◌<◌, ◌+◌, ◌/◌, ◌^◌, ◌++◌, take, length, OnOk, IfOk};
ghost use Rattle.abuf_scene.specs.Demo.{step, face, obj, library};
ghost use Rattle.abuf_scene.specs.declared.demo.TheConstants.{FACE_ROOM, POINT_ROOM};
ghost use Rattle.abuf_scene.specs.Drawing.{three, vertex_from, lines_from, AreDrawn};

use crate::short_texts::{ShortText, drawn_texts, put};
use abuf_num::{List, NoMemory};
use std::alloc::Global;

/// The bytes of a demonstration scene in OBJ, and of its library in MTL.
#[derive(Drop)]
pub struct Made {
    pub obj: List<u8>,
    pub library: List<u8>,
}

/// A register of 32 bits from which numbers are drawn.
#[derive(Clone, Copy)]
struct Register {
    s: u32,
}

impl Register {
    /// The next number, from 0 to 255, which is 128 above the one that it stands for.
    #[inline(always)]
    #[tactic(auto, unfolding(crate::specs::Demo::step))]
    fn draw(&mut self) -> usize
        ensures register { self.new.s ≡ step self.old.s }
        ensures value { result ≡ step self.old.s / 2 ^ 24 }
        ensures below { result < 256 }
    {
        self.s = ((1664525 * u64::from(self.s) + 1013904223) % (1 << 32)) as u32;
        (self.s / (1 << 24)) as usize
    }
}

/// The most bytes that the line of a point takes in a buffer: each number is copied as eight.
const POINT_ROOM: usize = 26;

/// The most bytes that the two lines of a face take there.
const FACE_ROOM: usize = 24;

/// The most bytes that the lines of a triangle take there.
const ROOM: usize = 3 * POINT_ROOM + FACE_ROOM;

/// Writes the line of a point into a buffer, with the next three numbers, and tells where it ends.
#[inline(always)]
fn put_vertex(
    buf: &mut [u8],
    at: usize,
    number_texts: &[ShortText],
    register: &mut Register,
) -> usize
    requires room { at + POINT_ROOM ≤ length buf.old }
    requires number_texts { AreDrawn number_texts.now }
    requires count { length number_texts.now ≡ 256 }
    ensures register { register.new.s ≡ three register.old.s }
    ensures line { take result buf.new ≡ take at buf.old ++ vertex_from register.old.s }
    ensures end { result ≤ at + POINT_ROOM }
    ensures size { length buf.new ≡ length buf.old }
{
    buf[at] = b'v';
    let x = put(buf, at + 1, number_texts[register.draw()]);
    let y = put(buf, x, number_texts[register.draw()]);
    let z = put(buf, y, number_texts[register.draw()]);
    buf[z] = b'\n';
    z + 1
}

/// Writes the two lines of a face into a buffer, and tells where they end.
#[inline(always)]
fn put_face(buf: &mut [u8], at: usize, i: u32) -> usize
    requires room { at + FACE_ROOM ≤ length buf.old }
    ensures lines { take result buf.new ≡ take at buf.old ++ face i }
    ensures end { result ≤ at + FACE_ROOM }
    ensures size { length buf.new ≡ length buf.old }
{
    let digit = b'0' + (i % 8) as u8;
    let keyword = put(
        buf,
        at,
        ShortText {
            bytes: *b"usemtl m",
            length: 8,
        },
    );
    let first = put(
        buf,
        keyword,
        ShortText {
            bytes: [digit, b'\n', b'f', b' ', b'-', b'3', b' ', b'-'],
            length: 8,
        },
    );
    put(
        buf,
        first,
        ShortText {
            bytes: *b"2 -1\n\0\0\0",
            length: 5,
        },
    )
}

/// Puts the lines of triangle i last.
#[tactic(auto, unfolding(crate::specs::Drawing::lines_from))]
fn push_lines(
    out: &mut Vec<u8>,
    number_texts: &[ShortText],
    register: &mut Register,
    i: u32,
) -> Result<(), NoMemory>
    requires number_texts { AreDrawn number_texts.now }
    requires count { length number_texts.now ≡ 256 }
    ensures register { OnOk result (register.new.s ≡ three (three (three register.old.s))) }
    ensures lines { OnOk result (out.new.items ≡ out.old.items ++ lines_from register.old.s i) }
{
    let mut buf = [0; ROOM];
    let first = put_vertex(&mut buf, 0, number_texts, register);
    let second = put_vertex(&mut buf, first, number_texts, register);
    let third = put_vertex(&mut buf, second, number_texts, register);
    let end = put_face(&mut buf, third, i);
    out.extend_from_slice(&buf[..end])?;
    Ok(())
}

fn obj_bytes(alloc: Global, number: u32) -> Result<Vec<u8>, NoMemory>
    ensures { IfOk result (λ out. out.items ≡ obj number) }
{
    let mut register = Register { s: number };
    let number_texts = drawn_texts(alloc)?;
    let mut out = Vec::from_slice(alloc, b"mtllib demo.mtl\n")?;
    for i in 0..number {
        push_lines(&mut out, number_texts.as_slice(), &mut register, i)?;
    }
    Ok(out)
}

/// The demonstration scene of so many triangles: points drawn from a register of 32 bits that begins as
/// their number, and eight materials in turn.
pub fn make(alloc: Global, number: u32) -> Result<Made, NoMemory>
    requires { (1 ≤ number) × (number ≤ 200000) }
    ensures obj { IfOk result (λ made. made.obj ≡ obj number) }
    ensures library { IfOk result (λ made. made.library ≡ library) }
{
    let obj = obj_bytes(alloc, number)?;
    let library = Vec::from_slice(alloc, LIBRARY)?;
    Ok(Made {
        obj: List::from_vec(obj),
        library: List::from_vec(library),
    })
}

const LIBRARY: &[u8] =
    b"newmtl m0\nKd 1 0 0\nd 0.125\nnewmtl m1\nKd 0 1 0\nd 0.25\nnewmtl m2\nKd 0 0 1\nd 0.375\nnewmtl m3\nKd 1 1 0\nd 0.5\nnewmtl m4\nKd 0 1 1\nd 0.625\nnewmtl m5\nKd 1 0 1\nd 0.75\nnewmtl m6\nKd 1 1 1\nd 0.875\nnewmtl m7\nKd 0.5 0.5 0.5\nd 1\n";
