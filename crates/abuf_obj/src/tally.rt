// What can be told of the lines of a piece by their keywords.
ghost use Rattle.std.specs.Prelude.{◌≡◌, ◌+◌, ◌++◌, ◌∷◌, [], ◌-◌, ◌^◌, ◌<◌, ◌≤◌, length, IfOk, OnOk};
ghost use Rattle.abuf_text.specs.Lines.{lines};

use crate::given_up::GivenUp;
use crate::keyword::{Keyword, split_line};
use abuf_text::Lines;
use std::alloc::Global;

/// The most bytes of a line with a name. Each piece has a copy of the names, so few long ones would take much memory.
const MAX_NAMED_BYTES: usize = 256;

/// The most lines with names.
const MAX_NAMED: usize = 65536;

/// How many lines there are, how many of them are `v` lines, and those that have the name of a material or of a library.
#[derive(Drop)]
pub(crate) struct Tally<'a> {
    pub(crate) lines: u32,
    pub(crate) points: u32,
    pub(crate) named: Vec<&'a [u8]>,
    ghost some: { points ≤ lines },
}

impl<'a> Tally<'a> {
    ghost use Rattle.std.specs.Prelude.{List as Items, ℕ};
    ghost use Rattle.abuf_obj.specs.Pieces.{Counts, IsTally};

    fn keep(&mut self, line: &'a [u8]) -> Result<(), GivenUp>
        ensures lines { self.new.lines ≡ self.old.lines }
        ensures points { self.new.points ≡ self.old.points }
        ensures named { OnOk result (self.new.named.items ≡ self.old.named.items ++ line.entry ∷ []) }
    {
        if MAX_NAMED <= self.named.len() || MAX_NAMED_BYTES < line.len() {
            return Err(GivenUp);
        }
        self.named.push(line)?;
        Ok(())
    }

    /// Counts a line. Of a point or a face its keyword alone is looked at.
    fn add(&mut self, line: &'a [u8]) -> Result<(), GivenUp>
        requires { self.old.lines < 2 ^ 32 - 1 }
        ensures { OnOk result (Counts line.now self.old self.new) }
    {
        self.lines += 1;
        match split_line(line).0 {
            Keyword::Vertex => {
                self.points += 1;
                Ok(())
            }
            Keyword::Material => self.keep(line),
            Keyword::Library => self.keep(line),
            Keyword::Face => Ok(()),
            Keyword::Passed => Ok(()),
            Keyword::Refused => Err(GivenUp),
        }
    }

    /// The tally of these lines.
    pub(crate) fn of(alloc: Global, bytes: &'a [u8]) -> Result<Tally<'a>, GivenUp>
        requires { length bytes.now < 2 ^ 32 - 1 }
        ensures tally { IfOk result (IsTally (lines bytes.now)) }
        ensures few { IfOk result (λ t. t.lines ≤ length bytes.now) }
    {
        let mut tally = Tally {
            lines: 0,
            points: 0,
            named: Vec::new(alloc),
        };
        for line in Lines::new(bytes) {
            tally.add(line)?;
        }
        Ok(tally)
    }

    /// The tally of two pieces, the second behind the first.
    pub(crate) fn both(first: Tally<'a>, second: Tally<'a>) -> Result<Tally<'a>, GivenUp>
        requires { first.lines + second.lines < 2 ^ 32 }
        ensures tally { (xs ys : Items (Items ℕ)) → IsTally xs first.entry → IsTally ys second.entry → IfOk result (IsTally (xs ++ ys)) }
        ensures few { IfOk result (λ t. t.lines ≡ first.entry.lines + second.entry.lines) }
    {
        let Tally {
            lines,
            points,
            mut named,
        } = first;
        let mut more = second.named;
        named.append(&mut more)?;
        Ok(Tally {
            lines: lines + second.lines,
            points: points + second.points,
            named,
        })
    }
}
