// Why a run stops before its end, and what it then says.
ghost use Rattle.std.specs.Prelude.{◌≡◌, ◌++◌, ◌∷◌, [], IfOk, codes};
ghost use Rattle.std.specs.String.{string_bytes};
ghost use Rattle.std.specs.Fmt.{decimal};
ghost use Rattle.abuf_top.specs.declared.stop.FullPool.TheVariants as full;
ghost use Rattle.abuf_top.specs.Refusals.{scene_cause, library_cause, path_cause, line_text, refusal_status, refusal_text, full_text};

use crate::status::Status;
use abuf_cli::Opt;
use abuf_mtl::MtlWhy;
use abuf_obj::Why;
use abuf_sequence::PathWhy;
use std::alloc::{AllocError, Global};

/// What is wrong with the words, the path of a sequence, the scene or a library.
#[derive(Clone, Copy, Debug, PartialEq, Eq)]
pub enum Refusal {
    /// The words aren't understood.
    Words,
    /// The text of this option, or of the command's own value, isn't in its form or range.
    Value(Opt),
    /// The shelf has no path of the sequence's name.
    PathMissing,
    /// The path has more than [`MAX_PATH_BYTES`](abuf_num::limits::MAX_PATH_BYTES) bytes.
    PathTooLong,
    /// The first line of the path that is at fault, from 1, and its cause.
    PathLine(u32, PathWhy),
    /// The scene has more than [`MAX_BYTES`](abuf_num::limits::MAX_BYTES) bytes.
    SceneTooLong,
    /// The first line of the scene that is at fault, from 1, and its cause.
    SceneLine(u32, Why),
    /// The line, from 1, of the first face whose material no library has.
    UnknownMaterial(u32),
    /// The shelf has no library of this name: the library's number among the scene's names, from 1.
    LibraryMissing(usize),
    /// The library of this number, from 1, has more than [`MAX_BYTES`](abuf_num::limits::MAX_BYTES) bytes.
    LibraryTooLong(usize),
    /// The number of the library, from 1, its first line that is at fault, from 1, and the cause.
    LibraryLine(usize, u32, MtlWhy),
}

/// A pool with fewer nodes than there are fragments.
#[derive(Clone, Copy, Debug, PartialEq, Eq)]
pub enum FullPool {
    /// The pool of the whole image: how many fragments the scene has, and how many nodes the pool.
    Image {
        fragments: u64,
        nodes: u32,
    },
    /// The pool of a band: the number of the band, from 1, and how many fragments are in it.
    Band {
        band: u32,
        fragments: u64,
        nodes: u32,
    },
    /// The pool of an image of a sequence: the number of the image, from 1, and how many fragments it has.
    InSequence {
        image: u32,
        fragments: u64,
        nodes: u32,
    },
}

/// Why a run stops before its end.
#[derive(Clone, Copy, Debug, PartialEq, Eq)]
pub enum Stop {
    /// By the words, the path, the scene or a library.
    Refused(Refusal),
    /// By a pool that has fewer nodes than there are fragments.
    PoolFull(FullPool),
    /// The source or the shelf failed.
    ReadFault,
    /// The output failed before all of it was written.
    WriteFault,
    /// Memory ran out; this may come at any time before the last output is written.
    Memory,
}

fn scene_cause(why: Why) -> &'static str
    ensures { result.now ≡ scene_cause why }
{
    match why {
        Why::Keyword => "unknown keyword",
        Why::BadNumber => "bad number",
        Why::BadIndex => "bad index",
        Why::TooFewElements => "too few elements",
        Why::TooManyElements => "too many elements",
        Why::NoName => "no name",
        Why::TooManyPoints => "too many points",
        Why::TooManyTriangles => "too many triangles",
        Why::TooManyLibraries => "too many libraries",
        Why::TooManyMaterials => "too many materials",
    }
}

fn library_cause(why: MtlWhy) -> &'static str
    ensures { result.now ≡ library_cause why }
{
    match why {
        MtlWhy::BadNumber => "bad number",
        MtlWhy::NoName => "no name",
        MtlWhy::TooMany => "too many materials",
        MtlWhy::NoMaterial => "no material",
    }
}

fn path_cause(why: PathWhy) -> &'static str
    ensures { result.now ≡ path_cause why }
{
    match why {
        PathWhy::WrongCount => "wrong count",
        PathWhy::BadTurn => "bad turn",
        PathWhy::BadNumber => "bad number",
        PathWhy::TooMany => "too many images",
    }
}

fn bad_value(alloc: Global, name: &str) -> Result<String, AllocError>
    ensures { IfOk result (λ line. string_bytes line ≡ codes "bad value: " ++ name.now ++ 10 ∷ []) }
{
    format!(in alloc; "bad value: {name}\n")
}

fn at_line(alloc: Global, line: u32, cause: &str) -> Result<String, AllocError>
    ensures { IfOk result (λ text. string_bytes text ≡ line_text line cause.now ++ 10 ∷ []) }
{
    format!(in alloc; "line {line}: {cause}\n")
}

fn at_path_line(alloc: Global, line: u32, cause: &str) -> Result<String, AllocError>
    ensures { IfOk result (λ text. string_bytes text ≡ codes "path line " ++ decimal line ++ codes ": " ++ cause.now ++ 10 ∷ []) }
{
    format!(in alloc; "path line {line}: {cause}\n")
}

fn library_missing(alloc: Global, k: usize) -> Result<String, AllocError>
    ensures { IfOk result (λ text. string_bytes text ≡ codes "library " ++ decimal k ++ codes " missing" ++ 10 ∷ []) }
{
    format!(in alloc; "library {k} missing\n")
}

fn library_too_long(alloc: Global, k: usize) -> Result<String, AllocError>
    ensures { IfOk result (λ text. string_bytes text ≡ codes "library " ++ decimal k ++ codes " too long" ++ 10 ∷ []) }
{
    format!(in alloc; "library {k} too long\n")
}

fn at_library_line(alloc: Global, k: usize, line: u32, cause: &str) -> Result<String, AllocError>
    ensures { IfOk result (λ text. string_bytes text
        ≡ codes "library " ++ decimal k ++ codes " line " ++ decimal line ++ codes ": " ++ cause.now ++ 10 ∷ []) }
{
    format!(in alloc; "library {k} line {line}: {cause}\n")
}

fn image_full(alloc: Global, fragments: u64, nodes: u32) -> Result<String, AllocError>
    ensures { IfOk result (λ text. string_bytes text ≡ full_text (full.Image fragments nodes) ++ 10 ∷ []) }
{
    format!(in alloc; "pool full: {fragments} fragments, {nodes} nodes\n")
}

fn band_full(alloc: Global, band: u32, fragments: u64, nodes: u32) -> Result<String, AllocError>
    ensures { IfOk result (λ text. string_bytes text ≡ full_text (full.Band band fragments nodes) ++ 10 ∷ []) }
{
    format!(in alloc; "band {band} full: {fragments} fragments, {nodes} nodes\n")
}

fn image_of_sequence_full(
    alloc: Global,
    image: u32,
    fragments: u64,
    nodes: u32,
) -> Result<String, AllocError>
    ensures { IfOk result (λ text. string_bytes text ≡ full_text (full.InSequence image fragments nodes) ++ 10 ∷ []) }
{
    format!(in alloc; "image {image}: pool full: {fragments} fragments, {nodes} nodes\n")
}

impl FullPool {
    /// The text, with its line feed. An error means that memory ran out.
    pub fn line(self, alloc: Global) -> Result<String, AllocError>
        ensures { IfOk result (λ line. string_bytes line ≡ full_text self ++ 10 ∷ []) }
    {
        match self {
            FullPool::Image { fragments, nodes } => image_full(alloc, fragments, nodes),
            FullPool::Band {
                band,
                fragments,
                nodes,
            } => band_full(alloc, band, fragments, nodes),
            FullPool::InSequence {
                image,
                fragments,
                nodes,
            } => image_of_sequence_full(alloc, image, fragments, nodes),
        }
    }
}

impl Refusal {
    /// Whether the words, the path, the scene or a library are refused.
    pub fn status(self) -> Status
        ensures { result ≡ refusal_status self }
    {
        match self {
            Refusal::Words | Refusal::Value(_) => Status::Words,
            Refusal::PathMissing | Refusal::PathTooLong | Refusal::PathLine(_, _) => Status::Path,
            Refusal::SceneTooLong | Refusal::SceneLine(_, _) | Refusal::UnknownMaterial(_) => {
                Status::Scene
            }
            Refusal::LibraryMissing(_)
            | Refusal::LibraryTooLong(_)
            | Refusal::LibraryLine(_, _, _) => Status::Library,
        }
    }

    /// The text, with its line feed. An error means that memory ran out.
    pub fn line(self, alloc: Global) -> Result<String, AllocError>
        ensures { IfOk result (λ line. string_bytes line ≡ refusal_text self ++ 10 ∷ []) }
    {
        match self {
            Refusal::Words => String::from_str(alloc, "words not understood\n"),
            Refusal::Value(option) => bad_value(alloc, option.name()),
            Refusal::PathMissing => String::from_str(alloc, "path missing\n"),
            Refusal::PathTooLong => String::from_str(alloc, "path too long\n"),
            Refusal::PathLine(line, why) => at_path_line(alloc, line, path_cause(why)),
            Refusal::SceneTooLong => String::from_str(alloc, "scene too long\n"),
            Refusal::SceneLine(line, why) => at_line(alloc, line, scene_cause(why)),
            Refusal::UnknownMaterial(line) => at_line(alloc, line, "unknown material"),
            Refusal::LibraryMissing(k) => library_missing(alloc, k),
            Refusal::LibraryTooLong(k) => library_too_long(alloc, k),
            Refusal::LibraryLine(k, line, why) => {
                at_library_line(alloc, k, line, library_cause(why))
            }
        }
    }
}
