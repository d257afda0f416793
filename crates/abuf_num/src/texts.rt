// Numbers written in few digits, and decimal numbers of which only the value counts.
ghost use Rattle.std.specs.Prelude.{◌≡◌, ◌≤◌, ◌<◌, ◌^◌, drop, unsigned_abs, IfSome};
ghost use Rattle.abuf_num.specs.declared.limits.TheConstants.{MAX_COORDINATE};
ghost use Rattle.abuf_num.specs.Texts.{whole_number, signed_number, scaled_number};

use crate::decimal::{has_digits_only, scaled, spelled};
use crate::sign::begins_negative;

/// The number that one to `most` digits spell, leading zeros counted; none where the text is anything else. Takes no memory.
pub fn whole_number(text: &[u8], most: usize) -> Option<u32>
    requires { most ≤ 7 }
    ensures value { result ≡ whole_number most text.now }
    ensures below { IfSome result (λ n. n < 10 ^ most) }
{
    if text.is_empty() || text.len() > most || !has_digits_only(text) {
        None
    } else {
        Some(spelled(0, 0, text) as u32)
    }
}

/// The text without its first byte.
fn without_first(text: &[u8]) -> &[u8]
    ensures { result.now ≡ drop 1 text.now }
{
    match text {
        [_, rest @ ..] => rest,
        [] => text,
    }
}

/// The number that an optional `-` and one to four digits spell; none where the text is anything else. Takes no memory.
pub fn signed_number(text: &[u8]) -> Option<i64>
    ensures { result ≡ signed_number text.now }
{
    if begins_negative(text) {
        match whole_number(without_first(text), 4) {
            Some(n) => Some(-i64::from(n)),
            None => None,
        }
    } else {
        match whole_number(text, 4) {
            Some(n) => Some(i64::from(n)),
            None => None,
        }
    }
}

/// The number of [`scaled`], or none for any fault. Takes no memory.
pub fn scaled_number(text: &[u8], k: u32) -> Option<i64>
    requires least { 1 ≤ k }
    requires most { k ≤ 65536 }
    ensures value { result ≡ scaled_number k text.now }
    ensures range { IfSome result (λ z. unsigned_abs z ≤ MAX_COORDINATE) }
{
    match scaled(text, k) {
        Ok(value) => Some(value),
        Err(_) => None,
    }
}
