// Texts of at most eight bytes, each copied at once. Those of the numbers that the demonstration scene draws are made beforehand.
ghost use Rattle.std.specs.Prelude.{◌≡◌, ◌≤◌, ◌<◌, ◌+◌, ◌++◌, take, length, unsigned_abs, OnOk, IfOk};
ghost use Rattle.abuf_scene.specs.Demo.{coordinate};
ghost use Rattle.abuf_scene.specs.Drawing.{drawn, text_of, IsShortText, AreDrawn};

use abuf_num::NoMemory;
use itoa::Buffer;
use std::alloc::Global;
use std::simd::prelude::*;

/// A text of at most eight bytes.
#[derive(Clone, Copy)]
pub(crate) struct ShortText {
    pub(crate) bytes: [u8; 8],
    pub(crate) length: usize,
}

/// Puts a coordinate last, behind some bytes.
#[tactic(auto, unfolding(crate::specs::Demo::coordinate), using(crate::proofs::Putting::coordinate_short))]
fn push_coordinate(out: &mut Vec<u8>, before: &[u8], value: i32) -> Result<(), NoMemory>
    ensures text { OnOk result (out.new.items ≡ out.old.items ++ before.now ++ coordinate value) }
    ensures short { unsigned_abs value ≤ 999 → length (coordinate value) ≤ 7 }
{
    let mut buffer = Buffer::new();
    out.extend_from_slice(before)?;
    out.extend_from_slice(buffer.format(value).as_bytes())?;
    out.extend_from_slice(b"e-2")?;
    Ok(())
}

fn short_text_of(text: &[u8]) -> ShortText
    requires { length text.now ≤ 8 }
    ensures { IsShortText text.now result }
{
    let mut bytes = [0; 8];
    bytes[..text.len()].copy_from_slice(text);
    ShortText {
        bytes,
        length: text.len(),
    }
}

/// A space and the coordinate of a drawn number.
fn drawn_text(alloc: Global, i: u32) -> Result<ShortText, NoMemory>
    requires { i < 256 }
    ensures { IfOk result (λ short_text. IsShortText (drawn i) short_text) }
{
    let mut text = Vec::new(alloc);
    push_coordinate(&mut text, b" ", i as i32 - 128)?;
    Ok(short_text_of(text.as_slice()))
}

/// The texts of all numbers that can be drawn, in their order.
pub(crate) fn drawn_texts(alloc: Global) -> Result<Vec<ShortText>, NoMemory>
    ensures drawn { IfOk result (λ number_texts. AreDrawn number_texts.items) }
    ensures count { IfOk result (λ number_texts. length number_texts.items ≡ 256) }
{
    let mut number_texts = Vec::with_capacity(alloc, 256)?;
    for i in 0..256 {
        number_texts.push(drawn_text(alloc, i)?)?;
    }
    Ok(number_texts)
}

/// Writes the text into a buffer, and tells where it ends. The bytes up to the eighth are written over.
#[inline(always)]
pub(crate) fn put(buf: &mut [u8], at: usize, short_text: ShortText) -> usize
    requires room { at + 8 ≤ length buf.old }
    requires short { short_text.length ≤ 8 }
    ensures text { take result buf.new ≡ take at buf.old ++ text_of short_text }
    ensures end { result ≤ at + 8 }
    ensures size { length buf.new ≡ length buf.old }
{
    Simd::<u8, 8>::from_slice(&short_text.bytes).copy_to_slice(&mut buf[at..]);
    at + short_text.length
}
