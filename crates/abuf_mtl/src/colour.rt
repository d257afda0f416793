// The numbers of a `Kd` or a `d` line.
ghost use Rattle.std.specs.Prelude.{◌≡◌};
ghost use Rattle.abuf_mtl.specs.Said.{fraction_of, colour_of, colour_from, grey, alpha_of};

use abuf_num::{channel, scaled};
use abuf_text::Statement;

/// A number from 0 to 1 as a channel; other numbers are clamped.
fn fraction(text: &[u8]) -> Option<u16>
    ensures { result ≡ fraction_of text.now }
{
    match scaled(text, 65535) {
        Ok(value) => Some(channel(value)),
        Err(_) => None,
    }
}

fn three(red: Option<u16>, green: Option<u16>, blue: Option<u16>) -> Option<[u16; 3]>
    ensures { result ≡ colour_from red green blue }
{
    match (red, green, blue) {
        (Some(red), Some(green), Some(blue)) => Some([red, green, blue]),
        _ => None,
    }
}

fn one(value: Option<u16>) -> Option<[u16; 3]>
    ensures { result ≡ grey value }
{
    match value {
        Some(value) => Some([value, value, value]),
        None => None,
    }
}

/// The colour of three numbers, or of one that stands for all three.
pub(crate) fn colour(mut arguments: Statement) -> Option<[u16; 3]>
    ensures { result ≡ colour_of arguments.entry }
{
    let Some(red) = arguments.next() else {
        return None;
    };
    let Some(green) = arguments.next() else {
        return one(fraction(red));
    };
    match arguments.next() {
        Some(blue) => three(fraction(red), fraction(green), fraction(blue)),
        None => None,
    }
}

/// The alpha of one number.
pub(crate) fn alpha(mut arguments: Statement) -> Option<u16>
    ensures { result ≡ alpha_of arguments.entry }
{
    match arguments.next() {
        Some(value) => fraction(value),
        None => None,
    }
}
