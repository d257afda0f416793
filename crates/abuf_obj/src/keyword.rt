// The kind of a line.
ghost use Rattle.std.specs.Prelude.{◌≡◌, ◌<◌, length, slice_index, IsTrue};
ghost use Rattle.std.specs.List.{list_any, list_all};
ghost use Rattle.std.specs.Str.{bytes_eq};
ghost use Rattle.abuf_text.specs.Statement.{statement, arguments};
ghost use Rattle.abuf_obj.specs.Keywords.{named, keyword_of, refused, is_graphic};

use abuf_text::Statement;

/// The kind of a line of a scene.
#[derive(Clone, Copy, Debug, PartialEq, Eq)]
pub(crate) enum Keyword {
    /// `v`
    Vertex,
    /// `f`
    Face,
    /// `usemtl`
    Material,
    /// `mtllib`
    Library,
    /// A line that isn't read.
    Passed,
    /// A keyword that is refused.
    Refused,
}

fn is_refused(token: &[u8]) -> bool
    ensures { result ≡ list_any (bytes_eq token.now) refused }
{
    token == b"cstype".as_slice()
        || token == b"deg".as_slice()
        || token == b"bmat".as_slice()
        || token == b"step".as_slice()
        || token == b"curv".as_slice()
        || token == b"curv2".as_slice()
        || token == b"surf".as_slice()
        || token == b"parm".as_slice()
        || token == b"trim".as_slice()
        || token == b"hole".as_slice()
        || token == b"scrv".as_slice()
        || token == b"sp".as_slice()
        || token == b"end".as_slice()
        || token == b"con".as_slice()
        || token == b"call".as_slice()
}

fn is_graphic(token: &[u8]) -> bool
    ensures { result ≡ list_all is_graphic token.now }
{
    token.iter().all(|b| 33 <= *b && *b <= 126)
}

impl Keyword {
    fn read(token: &[u8]) -> Keyword
        ensures { result ≡ named token.now }
    {
        if token == b"v".as_slice() {
            Keyword::Vertex
        } else if token == b"f".as_slice() {
            Keyword::Face
        } else if token == b"usemtl".as_slice() {
            Keyword::Material
        } else if token == b"mtllib".as_slice() {
            Keyword::Library
        } else if is_refused(token) {
            Keyword::Refused
        } else if is_graphic(token) {
            Keyword::Passed
        } else {
            Keyword::Refused
        }
    }
}

/// The text begins with this byte.
#[inline(always)]
fn begins_with(text: &[u8], byte: u8) -> bool
    ensures { IsTrue result → (0 < length text.now) × (slice_index text.now 0 ≡ byte) }
{
    match text.first() {
        Some(b) => *b == byte,
        None => false,
    }
}

/// The kind of a line, and its arguments. The lines of points and faces, which nearly all are, are told by their first two bytes.
#[inline(always)]
pub(crate) fn split_line(line: &[u8]) -> (Keyword, Statement)
    ensures keyword { result.0 ≡ keyword_of (statement line.now) }
    ensures arguments { result.1 ≡ arguments line.now }
{
    let mut statement = Statement::new(line);
    let text = statement.text();
    if begins_with(text, b'v') {
        if let Some(arguments) = Statement::behind(text, 1) {
            return (Keyword::Vertex, arguments);
        }
    }
    if begins_with(text, b'f') {
        if let Some(arguments) = Statement::behind(text, 1) {
            return (Keyword::Face, arguments);
        }
    }
    match statement.next() {
        Some(token) => (Keyword::read(token), statement),
        None => (Keyword::Passed, statement),
    }
}
