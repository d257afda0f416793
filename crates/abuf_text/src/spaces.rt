// The rest of a line.
ghost use Rattle.std.specs.Prelude.{◌≡◌, ◌≤◌, length, reverse, position, unwrap_or};
ghost use Rattle.std.specs.List.{position_or_len};
ghost use Rattle.abuf_text.specs.Statement.{is_space};
ghost use Rattle.abuf_text.specs.Rest.{is_text, trim_start, trim_end, first_token, after_token, rest};

/// A space, a tab or a carriage return.
pub(crate) fn is_space(b: u8) -> bool
    ensures { result ≡ is_space b }
{
    b == b' ' || b == b'\t' || b == b'\r'
}

/// The place, or the end of the bytes if there is none.
fn or_end(place: Option<usize>, bytes: &[u8]) -> usize
    ensures { result ≡ unwrap_or place (length bytes.now) }
{
    place.unwrap_or(bytes.len())
}

fn first_text(bytes: &[u8]) -> Option<usize>
    ensures { result ≡ position is_text bytes.now }
{
    bytes.iter().position(|b| !is_space(*b))
}

fn first_space(bytes: &[u8]) -> Option<usize>
    ensures { result ≡ position is_space bytes.now }
{
    bytes.iter().position(|b| is_space(*b))
}

fn last_text(bytes: &[u8]) -> Option<usize>
    ensures { result ≡ position is_text (reverse bytes.now) }
{
    bytes.iter().rev().position(|b| !is_space(*b))
}

/// How many blanks the bytes start with.
fn spaces_in_front(bytes: &[u8]) -> usize
    ensures count { result ≡ position_or_len is_text bytes.now }
    ensures within { result ≤ length bytes.now }
{
    or_end(first_text(bytes), bytes)
}

/// How many blanks the bytes end with.
fn spaces_at_end(bytes: &[u8]) -> usize
    ensures count { result ≡ position_or_len is_text (reverse bytes.now) }
    ensures within { result ≤ length bytes.now }
{
    or_end(last_text(bytes), bytes)
}

/// How many bytes stand before the first blank.
fn token_length(bytes: &[u8]) -> usize
    ensures count { result ≡ position_or_len is_space bytes.now }
    ensures within { result ≤ length bytes.now }
{
    or_end(first_space(bytes), bytes)
}

pub(crate) fn trim_start(bytes: &[u8]) -> &[u8]
    ensures { result.now ≡ trim_start bytes.now }
{
    &bytes[spaces_in_front(bytes)..]
}

fn trim_end(bytes: &[u8]) -> &[u8]
    ensures { result.now ≡ trim_end bytes.now }
{
    &bytes[..bytes.len() - spaces_at_end(bytes)]
}

/// The bytes up to the first blank, and those from there on.
pub(crate) fn split_token(bytes: &[u8]) -> (&[u8], &[u8])
    ensures word { result.0.now ≡ first_token bytes.now }
    ensures after { result.1.now ≡ after_token bytes.now }
{
    bytes.split_at(token_length(bytes))
}

/// All that follows the keyword, without the blanks at both ends.
pub fn rest(line: &[u8]) -> &[u8]
    ensures { result.now ≡ rest line.now }
{
    trim_end(trim_start(split_token(trim_start(line)).1))
}
