// Numbers as text.
ghost use Rattle.std.specs.Prelude.{◌≡◌, ◌≤◌, ◌<◌, ◌*◌, ◌+◌, ◌^◌, ◌⊎◌, ◌-ℤ◌, position, length, option_map, IfSome, true, pos};
ghost use Rattle.abuf_num.specs.DecimalParts.{number_view, HasDigits};
ghost use Rattle.abuf_num.specs.Size.{result_of};
ghost use Rattle.abuf_num.specs.Decimal.{is_mark, is_point, all_digits, cut_by, cut_to, exponent_of, exponent_value, fraction_of, mantissa_of, number_of, spelled_from, digits_value, or_zero, nearest_to, in_range, scaled};

use crate::leading::leading_number;
use crate::sign::{begins_negative, strip_sign};
use crate::size::size;

/// Why a text gives no result.
#[derive(Clone, Copy, Debug, PartialEq, Eq)]
pub enum NumFault {
    /// The text is no number.
    Form,
    /// The text is a number with more than 30 digits before its exponent, leading zeros counted, or with
    /// more than three digits in its exponent.
    Digits,
    /// The text is a number, and the result is past 2147483647 either way.
    Range,
}

/// The parts of a number's text, by bytes that are digits.
#[derive(Clone, Copy)]
pub(crate) struct DecimalParts<'a> {
    pub(crate) negative: bool,
    pub(crate) whole: &'a [u8],
    pub(crate) fraction: &'a [u8],
    pub(crate) exponent_negative: bool,
    pub(crate) exponent: &'a [u8],
}

/// The text has no byte but digits.
pub(crate) fn has_digits_only(text: &[u8]) -> bool
    ensures { result ≡ all_digits text.now }
{
    text.iter().all(|b| 48 <= *b && *b <= 57)
}

fn first_mark(text: &[u8]) -> Option<usize>
    ensures { result ≡ position is_mark text.now }
{
    text.iter().position(|b| *b == b'e' || *b == b'E')
}

fn first_point(text: &[u8]) -> Option<usize>
    ensures { result ≡ position is_point text.now }
{
    text.iter().position(|b| *b == b'.')
}

/// What stands before and after that place.
fn cut_at(text: &[u8], place: Option<usize>) -> (&[u8], Option<&[u8]>)
    requires { IfSome place (λ k. k < length text.now) }
    ensures { (result.0.now, option_map (λ t. t.now) result.1) ≡ cut_to place text.now }
{
    match place {
        Some(place) => (&text[..place], Some(&text[place + 1..])),
        None => (text, None),
    }
}

/// The sign and the digits of an exponent.
fn exponent(text: Option<&[u8]>) -> Option<(bool, &[u8])>
    ensures value { option_map (λ p. (p.0, p.1.now)) result ≡ exponent_of (option_map (λ t. t.now) text.entry) }
    ensures digits { IfSome result (λ p. all_digits p.1.now ≡ true) }
{
    match text {
        None => Some((false, &[])),
        Some(text) => {
            let digits = strip_sign(text);
            if !digits.is_empty() && has_digits_only(digits) {
                Some((begins_negative(text), digits))
            } else {
                None
            }
        }
    }
}

fn or_empty(text: Option<&[u8]>) -> &[u8]
    ensures { result.now ≡ fraction_of (option_map (λ t. t.now) text.entry) }
{
    match text {
        None => &[],
        Some(text) => text,
    }
}

/// The digits before and after the point.
fn mantissa(text: &[u8]) -> Option<(&[u8], &[u8])>
    ensures value { option_map (λ p. (p.0.now, p.1.now)) result ≡ mantissa_of (cut_by is_point text.now) }
    ensures digits { IfSome result (λ p. (all_digits p.0.now ≡ true) × (all_digits p.1.now ≡ true)) }
{
    let (whole, fraction) = cut_at(text, first_point(text));
    let fraction = or_empty(fraction);
    if (!whole.is_empty() || !fraction.is_empty())
        && has_digits_only(whole)
        && has_digits_only(fraction)
    {
        Some((whole, fraction))
    } else {
        None
    }
}

/// The parts of a text, if it is a number.
fn split(text: &[u8]) -> Option<DecimalParts<'_>>
    ensures value { option_map number_view result ≡ number_of text.now }
    ensures digits { IfSome result HasDigits }
{
    let (front, behind) = cut_at(strip_sign(text), first_mark(strip_sign(text)));
    match (mantissa(front), exponent(behind)) {
        (Some((whole, fraction)), Some((exponent_negative, exponent))) => Some(DecimalParts {
            negative: begins_negative(text),
            whole,
            fraction,
            exponent_negative,
            exponent,
        }),
        _ => None,
    }
}

/// The number that digits spell, after a number of so many places.
pub(crate) fn spelled(from: u128, places: usize, text: &[u8]) -> u128
    requires before { from < 10 ^ places }
    requires short { places + length text.now ≤ 30 }
    requires digits { all_digits text.now ≡ true }
    ensures value { result ≡ spelled_from from text.now }
    ensures small { result < 10 ^ (places + length text.now) }
{
    let mut n = from;
    for b in text {
        n = 10 * n + u128::from(*b - 48);
    }
    n
}

impl DecimalParts<'_> {
    /// All the digits, as one number.
    fn digits_value(&self) -> u128
        requires digits { HasDigits self.now }
        requires short { length self.now.whole.now + length self.now.fraction.now ≤ 30 }
        ensures value { result ≡ digits_value (number_view self.now) }
        ensures small { result < 10 ^ 30 }
    {
        let whole = spelled(0, 0, self.whole);
        spelled(whole, self.whole.len(), self.fraction)
    }

    /// The exponent without its sign.
    fn exponent_value(&self) -> u32
        requires digits { HasDigits self.now }
        requires short { length self.now.exponent.now ≤ 3 }
        ensures value { result ≡ spelled_from 0 self.now.exponent.now }
        ensures small { result < 1000 }
    {
        spelled(0, 0, self.exponent) as u32
    }

    /// By how many places the point moves to the right and to the left.
    fn moves(&self) -> (u32, u32)
        requires digits { HasDigits self.now }
        requires short { length self.now.exponent.now ≤ 3 }
        requires few { length self.now.fraction.now ≤ 30 }
        ensures up { result.0 ≡ or_zero (exponent_value (number_view self.now) -ℤ pos (length self.now.fraction.now)) }
        ensures down { result.1 ≡ or_zero (pos (length self.now.fraction.now) -ℤ exponent_value (number_view self.now)) }
        ensures one_way { (result.0 ≡ 0) ⊎ (result.1 ≡ 0) }
    {
        let exponent = self.exponent_value();
        let fraction = self.fraction.len() as u32;
        if self.exponent_negative {
            (0, fraction + exponent)
        } else if fraction <= exponent {
            (exponent - fraction, 0)
        } else {
            (0, fraction - exponent)
        }
    }

    /// `k` times the number, whose digits without the point spell `digits`, rounded and in range.
    #[inline(always)]
    pub(crate) fn result(&self, digits: u128, k: u32) -> Result<i64, NumFault>
        requires digits { HasDigits self.now }
        requires few { length self.now.whole.now + length self.now.fraction.now ≤ 30 }
        requires short { length self.now.exponent.now ≤ 3 }
        requires value { digits ≡ digits_value (number_view self.now) }
        requires small { digits < 10 ^ 30 }
        requires most { k ≤ 65536 }
        ensures { result ≡ in_range (nearest_to (number_view self.now) k) }
    {
        let (up, down) = self.moves();
        with_sign(self.negative, size(digits * u128::from(k), up, down))
    }
}

fn with_sign(negative: bool, size: Option<u32>) -> Result<i64, NumFault>
    ensures { result ≡ result_of negative size }
{
    match size {
        None => Err(NumFault::Range),
        Some(n) if negative => Ok(-i64::from(n)),
        Some(n) => Ok(i64::from(n)),
    }
}

/// `scaled` by the parts of the text, for numbers of every form.
fn scaled_by_parts(text: &[u8], k: u32) -> Result<i64, NumFault>
    requires least { 1 ≤ k }
    requires most { k ≤ 65536 }
    ensures { result ≡ scaled text.now k }
{
    let Some(parts) = split(text) else {
        return Err(NumFault::Form);
    };
    if parts.whole.len() + parts.fraction.len() > 30 || parts.exponent.len() > 3 {
        return Err(NumFault::Digits);
    }
    parts.result(parts.digits_value(), k)
}

/// The number that the text is, times `k`, rounded to the nearest whole number, halves away from
/// zero. A number is an optional `+` or `-`, digits with at most one point and at least one digit
/// before or after it, and optionally `e` or `E`, an optional sign and at least one digit. A
/// result is at most 2147483647 either way. Takes no memory.
pub fn scaled(text: &[u8], k: u32) -> Result<i64, NumFault>
    requires least { 1 ≤ k }
    requires most { k ≤ 65536 }
    ensures { result ≡ scaled text.now k }
{
    match leading_number(text, k) {
        Some(number) if number.length == text.len() => Ok(number.value),
        _ => scaled_by_parts(text, k),
    }
}
