// The kind of a line of a library.
ghost use Rattle.std.specs.Prelude.{◌≡◌};
ghost use Rattle.abuf_text.specs.Statement.{statement, arguments};
ghost use Rattle.abuf_mtl.specs.Said.{named, keyword_of};

use abuf_text::Statement;

/// The kind of a line of a library, by its keyword.
#[derive(Clone, Copy, Debug, PartialEq, Eq)]
pub(crate) enum Keyword {
    /// `newmtl`
    Material,
    /// `Kd`
    Colour,
    /// `d`
    Alpha,
    /// Any other, or none.
    Other,
}

impl Keyword {
    fn read(word: &[u8]) -> Keyword
        ensures { result ≡ named word.now }
    {
        if word == b"newmtl".as_slice() {
            Keyword::Material
        } else if word == b"Kd".as_slice() {
            Keyword::Colour
        } else if word == b"d".as_slice() {
            Keyword::Alpha
        } else {
            Keyword::Other
        }
    }
}

/// The kind of a line, and its arguments.
pub(crate) fn split_line(line: &[u8]) -> (Keyword, Statement)
    ensures keyword { result.0 ≡ keyword_of (statement line.now) }
    ensures arguments { result.1 ≡ arguments line.now }
{
    let mut tokens = Statement::new(line);
    match tokens.next() {
        Some(word) => (Keyword::read(word), tokens),
        None => (Keyword::Other, tokens),
    }
}
