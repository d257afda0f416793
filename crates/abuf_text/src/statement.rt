// What a line says.
ghost use Rattle.std.specs.Prelude.{◌≡◌, ◌≤◌, ◌∷◌, [], List, length, take, IfSome};
ghost use Rattle.std.specs.Iterator.{YieldsFirstBy, item_count};
ghost use Rattle.abuf_text.specs.Statement.{statement, is_comment, is_space, IsPlain};

use crate::spaces::{is_space, split_token, trim_start};
use std::marker::Model;

/// The tokens of a line that are still to come, up to a comment: first the keyword, then its arguments.
///
/// Tokens are found one at a time and take no memory, however long the line is.
#[derive(Drop)]
pub struct Statement<'a> {
    left: &'a [u8],
}

impl<'a> Model for Statement<'a> {
    ghost use Rattle.std.specs.Prelude.{List, ℕ};
    ghost use Rattle.abuf_text.specs.Statement.{statement};

    ghost Value = { List (List ℕ) };

    ghost view = { λ s. statement s.left.now };
}

impl<'a> Statement<'a> {
    /// What this line says; nothing where it is blank.
    pub fn new(line: &'a [u8]) -> Statement<'a>
        ensures { result ≡ statement line.now }
    {
        Statement { left: line }
    }

    /// The bytes that are left, from the first token on. A reader that knows how its token begins reads it from here, and goes on
    /// [behind](Statement::behind) it, so that each byte is read once.
    #[inline(always)]
    pub fn text(&self) -> &'a [u8]
        ensures left { statement result.now ≡ self.now }
        ensures none { length result.now ≡ 0 → self.now ≡ [] }
    {
        trim_start(self.left)
    }

    /// What these bytes say behind a first token of so many bytes; none where the token is longer.
    #[inline(always)]
    pub fn behind(text: &'a [u8], count: usize) -> Option<Statement<'a>>
        requires within { count ≤ length text.now }
        requires token { IsPlain (take count text.now) }
        ensures { IfSome result (λ s. statement text.now ≡ take count text.now ∷ s) }
    {
        if count == text.len() {
            Some(Statement { left: &[] })
        } else if is_space(text[count]) {
            Some(Statement {
                left: &text[count..],
            })
        } else {
            None
        }
    }

    /// A second statement with the tokens that are left, for a caller that counts them before it reads.
    pub fn clone(&self) -> Statement<'a>
        ensures { result ≡ self.now }
    {
        Statement { left: self.left }
    }
}

impl<'a> Iterator for Statement<'a> {
    type Item = &'a [u8];

    ghost next_gives = { YieldsFirstBy (λ token. token.now) (λ tokens. tokens) };

    ghost remaining = { item_count (λ tokens. tokens) };

    fn next(&mut self) -> Option<&'a [u8]> {
        let text = trim_start(self.left);
        if text.is_empty() {
            self.left = text;
            return None;
        }
        let (token, after) = split_token(text);
        if begins_comment(token) {
            self.left = &[];
            None
        } else {
            self.left = after;
            Some(token)
        }
    }
}

fn begins_comment(token: &[u8]) -> bool
    ensures { result ≡ is_comment token.now }
{
    match token.first() {
        Some(b) => *b == b'#',
        None => false,
    }
}
