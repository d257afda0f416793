// Numbers at the start of a text, as exporters write them: of few digits. They are read in one pass, in 64 bits, which also finds
// the end of the token. A number of another form is for the caller to cut out and to read by `scaled`, which is slower.
ghost use Rattle.std.specs.Prelude.{◌≡◌, ◌≤◌, ◌<◌, ◌+◌, ◌^◌, take, length, slice_index, IfSome, true, false, Ok, unsigned_abs};
ghost use Rattle.std.specs.List.{list_all};
ghost use Rattle.abuf_num.specs.declared.limits.TheConstants.{MAX_COORDINATE};
ghost use Rattle.abuf_num.specs.Decimal.{is_digit, is_mark, all_digits, spelled_from, number_of, digits_value, scaled};
ghost use Rattle.abuf_num.specs.DecimalParts.{number_view, HasDigits};
ghost use Rattle.abuf_num.specs.Leading.{is_number_byte, IsMantissa, IsExponent};

use crate::decimal::DecimalParts;
use crate::sign::{begins_negative, strip_sign};

/// Digits at the start of a text: how many they are, and the number that they and the digits before them spell.
#[derive(Clone, Copy)]
pub struct LeadingDigits {
    pub count: usize,
    pub value: u64,
}

/// A number at the start of a text, and how many bytes it takes.
#[derive(Clone, Copy)]
pub struct LeadingNumber {
    pub value: i64,
    pub length: usize,
}

/// The digits before and after a point, the number that they spell together, and how many bytes they take with the point.
#[derive(Clone, Copy)]
struct Mantissa<'a> {
    whole: &'a [u8],
    fraction: &'a [u8],
    digits: u64,
    length: usize,
}

/// An exponent, and how many bytes it takes with its mark and its sign.
#[derive(Clone, Copy)]
struct Exponent<'a> {
    negative: bool,
    digits: &'a [u8],
    length: usize,
}

/// The parts of a number, the number that its digits spell without the point, and how many bytes it takes.
#[derive(Clone, Copy)]
struct Leading<'a> {
    parts: DecimalParts<'a>,
    digits: u64,
    length: usize,
}

/// At most so many bytes, from the first.
#[inline(always)]
fn front(text: &[u8], most: usize) -> &[u8]
    ensures { result.now ≡ take most text.now }
{
    if most < text.len() {
        &text[..most]
    } else {
        text
    }
}

/// All digits at the start of a short text, after a number of so many places. 64 bits hold every number of 19 digits.
#[inline(always)]
fn digits_of(from: u64, places: usize, text: &[u8]) -> LeadingDigits
    requires before { from < 10 ^ places }
    requires short { places + length text.now ≤ 19 }
    ensures count { result.count ≤ length text.now }
    ensures all { result.count < length text.now → is_digit (slice_index text.now result.count) ≡ false }
    ensures digits { all_digits (take result.count text.now) ≡ true }
    ensures value { result.value ≡ spelled_from from (take result.count text.now) }
    ensures small { result.value < 10 ^ (places + result.count) }
{
    let mut count = 0;
    let mut value = from;
    for b in text {
        if *b < 48 || 57 < *b {
            return LeadingDigits { count, value };
        }
        value = 10 * value + u64::from(*b - 48);
        count += 1;
    }
    LeadingDigits { count, value }
}

/// The digits at the start of a text, up to `most` of them, after a number of so many places.
#[inline(always)]
pub fn leading_digits(from: u64, places: usize, most: usize, text: &[u8]) -> LeadingDigits
    requires before { from < 10 ^ places }
    requires short { places + most ≤ 19 }
    ensures count { result.count ≤ length text.now }
    ensures few { result.count ≤ most }
    ensures all { result.count < most → result.count < length text.now → is_digit (slice_index text.now result.count) ≡ false }
    ensures digits { all_digits (take result.count text.now) ≡ true }
    ensures value { result.value ≡ spelled_from from (take result.count text.now) }
    ensures small { result.value < 10 ^ (places + result.count) }
{
    digits_of(from, places, front(text, most))
}

/// The digits at the start of a text, with a point before, among or behind them, if there is any digit.
#[inline(always)]
fn leading_mantissa(text: &[u8]) -> Option<Mantissa<'_>>
    ensures within { IfSome result (λ m. m.length ≤ length text.now) }
    ensures mantissa { IfSome result (λ m. IsMantissa m (take m.length text.now)) }
{
    let whole = leading_digits(0, 0, 18, text);
    if whole.count == text.len() || text[whole.count] != b'.' {
        return if whole.count == 0 {
            None
        } else {
            Some(Mantissa {
                whole: &text[..whole.count],
                fraction: &[],
                digits: whole.value,
                length: whole.count,
            })
        };
    }
    let behind = &text[whole.count + 1..];
    let fraction = leading_digits(whole.value, whole.count, 18 - whole.count, behind);
    if whole.count + fraction.count == 0 {
        return None;
    }
    Some(Mantissa {
        whole: &text[..whole.count],
        fraction: &behind[..fraction.count],
        digits: fraction.value,
        length: whole.count + 1 + fraction.count,
    })
}

/// `e` or `E`.
#[inline(always)]
fn is_mark(b: u8) -> bool
    ensures { result ≡ is_mark b }
{
    b == b'e' || b == b'E'
}

/// The exponent at the start of a text, which is 0 and takes no byte where no mark stands there.
#[inline(always)]
fn leading_exponent(text: &[u8]) -> Option<Exponent<'_>>
    ensures within { IfSome result (λ e. e.length ≤ length text.now) }
    ensures exponent { IfSome result (λ e. IsExponent e (take e.length text.now)) }
{
    if text.is_empty() || !is_mark(text[0]) {
        return Some(Exponent {
            negative: false,
            digits: &[],
            length: 0,
        });
    }
    let signed = &text[1..];
    let unsigned = strip_sign(signed);
    let digits = leading_digits(0, 0, 3, unsigned);
    if digits.count == 0 {
        return None;
    }
    Some(Exponent {
        negative: begins_negative(signed),
        digits: &unsigned[..digits.count],
        length: 1 + (signed.len() - unsigned.len()) + digits.count,
    })
}

/// The parts of the number at the start of a text.
#[inline(always)]
fn leading_parts(text: &[u8]) -> Option<Leading<'_>>
    ensures some { IfSome result (λ n. 0 < n.length) }
    ensures within { IfSome result (λ n. n.length ≤ length text.now) }
    ensures bytes { IfSome result (λ n. list_all is_number_byte (take n.length text.now) ≡ true) }
    ensures number { IfSome result (λ n. number_of (take n.length text.now) ≡ Some (number_view n.parts)) }
    ensures parts { IfSome result (λ n. HasDigits n.parts) }
    ensures few { IfSome result (λ n. length n.parts.whole.now + length n.parts.fraction.now ≤ 18) }
    ensures short { IfSome result (λ n. length n.parts.exponent.now ≤ 3) }
    ensures value { IfSome result (λ n. n.digits ≡ digits_value (number_view n.parts)) }
    ensures small { IfSome result (λ n. n.digits < 10 ^ 18) }
{
    let unsigned = strip_sign(text);
    let Some(mantissa) = leading_mantissa(unsigned) else {
        return None;
    };
    let Some(exponent) = leading_exponent(&unsigned[mantissa.length..]) else {
        return None;
    };
    Some(Leading {
        parts: DecimalParts {
            negative: begins_negative(text),
            whole: mantissa.whole,
            fraction: mantissa.fraction,
            exponent_negative: exponent.negative,
            exponent: exponent.digits,
        },
        digits: mantissa.digits,
        length: text.len() - unsigned.len() + mantissa.length + exponent.length,
    })
}

/// The result of [`scaled`](crate::scaled) for a number at the start of a text, whose bytes are digits, signs, points and marks.
/// None where no number stands there, where it has more than 18 digits before its exponent, or where it is out of range. More
/// such bytes may follow, so it is for the caller to see what stands behind the number. Takes no memory.
#[inline(always)]
pub fn leading_number(text: &[u8], k: u32) -> Option<LeadingNumber>
    requires least { 1 ≤ k }
    requires most { k ≤ 65536 }
    ensures value { IfSome result (λ n. scaled (take n.length text.now) k ≡ Ok n.value) }
    ensures range { IfSome result (λ n. unsigned_abs n.value ≤ MAX_COORDINATE) }
    ensures some { IfSome result (λ n. 0 < n.length) }
    ensures within { IfSome result (λ n. n.length ≤ length text.now) }
    ensures bytes { IfSome result (λ n. list_all is_number_byte (take n.length text.now) ≡ true) }
{
    let Some(leading) = leading_parts(text) else {
        return None;
    };
    match leading.parts.result(u128::from(leading.digits), k) {
        Ok(value) => Some(LeadingNumber {
            value,
            length: leading.length,
        }),
        Err(_) => None,
    }
}
