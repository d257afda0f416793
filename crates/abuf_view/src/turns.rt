// A turn written as the texts of its four components.
ghost use Rattle.std.specs.Prelude.{◌≡◌, ◌≤◌, IfSome, unsigned_abs};
ghost use Rattle.abuf_view.specs.Camera.{IsTurn, quaternion_of};
ghost use Rattle.abuf_view.specs.Turns.{turn_component, some_turn, turn_from};

use abuf_num::signed_number;

/// A component of a turn.
fn turn_component(text: &[u8]) -> Option<i32>
    ensures value { result ≡ turn_component text.now }
    ensures small { IfSome result (λ z. unsigned_abs z ≤ 1024) }
{
    match signed_number(text) {
        Some(part) if -1024 <= part && part <= 1024 => Some(part as i32),
        _ => None,
    }
}

/// A quaternion whose components are not all 0.
fn some_turn(a: i32, b: i32, c: i32, d: i32) -> Option<[i32; 4]>
    requires a { unsigned_abs a ≤ 1024 }
    requires b { unsigned_abs b ≤ 1024 }
    requires c { unsigned_abs c ≤ 1024 }
    requires d { unsigned_abs d ≤ 1024 }
    ensures value { result ≡ some_turn a b c d }
    ensures turn { IfSome result (λ t. IsTurn (quaternion_of t)) }
{
    if a == 0 && b == 0 && c == 0 && d == 0 {
        None
    } else {
        Some([a, b, c, d])
    }
}

/// The turn of these four texts, a quaternion that [`Camera::new`](crate::Camera::new) takes: each an optional `-` and one to
/// four digits, from -1024 to 1024, and not all 0. None where a text is anything else. Takes no memory.
pub fn turn_from(a: &[u8], b: &[u8], c: &[u8], d: &[u8]) -> Option<[i32; 4]>
    ensures value { result ≡ turn_from (turn_component a.now) (turn_component b.now) (turn_component c.now) (turn_component d.now) }
    ensures turn { IfSome result (λ t. IsTurn (quaternion_of t)) }
{
    match (
        turn_component(a),
        turn_component(b),
        turn_component(c),
        turn_component(d),
    ) {
        (Some(a), Some(b), Some(c), Some(d)) => some_turn(a, b, c, d),
        _ => None,
    }
}
