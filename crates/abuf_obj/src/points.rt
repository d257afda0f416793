// The point of a `v` line.
ghost use Rattle.std.specs.Prelude.{◌≡◌, ◌≤◌, All, IfSome, drop, unsigned_abs};
ghost use Rattle.abuf_num.specs.declared.limits.TheConstants.{MAX_COORDINATE};
ghost use Rattle.abuf_obj.specs.Points.{coordinate, first_coordinate, point_of};
ghost use Rattle.abuf_obj.specs.Sound.{IsInRange};

use abuf_num::{leading_number, scaled};
use abuf_text::Statement;

/// A number in units of 1/65536.
fn coordinate(text: &[u8]) -> Option<i64>
    ensures value { result ≡ coordinate text.now }
    ensures near { IfSome result (λ z. unsigned_abs z ≤ MAX_COORDINATE) }
{
    scaled(text, 65536).ok()
}

/// The first argument as a coordinate. Where it stands in the usual form, its end is found as it is read; else it is cut first.
#[inline(always)]
fn next_coordinate<'a>(arguments: &mut Statement<'a>) -> Option<i64>
    ensures value { result ≡ first_coordinate arguments.old }
    ensures near { IfSome result (λ z. unsigned_abs z ≤ MAX_COORDINATE) }
    ensures rest { IfSome result (λ _. arguments.new ≡ drop 1 arguments.old) }
{
    let text = arguments.text();
    if let Some(number) = leading_number(text, 65536) {
        if let Some(behind) = Statement::behind(text, number.length) {
            *arguments = behind;
            return Some(number.value);
        }
    }
    match arguments.next() {
        Some(token) => coordinate(token),
        None => None,
    }
}

/// The point of the first three arguments, if they are three numbers.
pub(crate) fn point(mut arguments: Statement) -> Option<[i64; 3]>
    ensures value { result ≡ point_of arguments.entry }
    ensures near { IfSome result IsInRange }
{
    let Some(x) = next_coordinate(&mut arguments) else {
        return None;
    };
    let Some(y) = next_coordinate(&mut arguments) else {
        return None;
    };
    match next_coordinate(&mut arguments) {
        Some(z) => Some([x, y, z]),
        None => None,
    }
}
