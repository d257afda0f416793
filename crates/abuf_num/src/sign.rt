// The sign in front of a number.
ghost use Rattle.std.specs.Prelude.{◌≡◌};
ghost use Rattle.abuf_num.specs.Decimal.{is_negative, without_sign};

/// The text begins with `-`.
pub fn begins_negative(text: &[u8]) -> bool
    ensures { result ≡ is_negative text.now }
{
    match text.first() {
        Some(b) => *b == b'-',
        None => false,
    }
}

/// What stands after a first `-` or `+`, or the whole text.
pub(crate) fn strip_sign(text: &[u8]) -> &[u8]
    ensures { result.now ≡ without_sign text.now }
{
    match text.first() {
        Some(b) if *b == b'-' || *b == b'+' => &text[1..],
        _ => text,
    }
}
