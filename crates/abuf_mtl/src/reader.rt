// The materials so far, line by line.
ghost use Rattle.std.specs.Prelude.{◌≡◌, ◌≤◌, length};
ghost use Rattle.abuf_num.specs.declared.limits.TheConstants.{MAX_MATERIALS};
ghost use Rattle.abuf_mtl.specs.Open.{IsOpen};

use crate::colour::{alpha, colour};
use crate::fault::{MtlFault, MtlWhy};
use crate::keyword::{Keyword, split_line};
use abuf_num::limits::MAX_MATERIALS;
use abuf_num::{NoMemory, Paint, WHITE};
use abuf_text::{Names, rest};
use std::alloc::Global;

/// Names with their paints, and the index of the material that is open.
#[derive(Drop)]
pub(crate) struct MtlReader {
    pub(crate) names: Names,
    pub(crate) paints: Vec<Paint>,
    pub(crate) begun: Option<usize>,
    ghost beside: { length paints.items ≡ length names },
    ghost few: { length names ≤ MAX_MATERIALS },
    ghost begun_is: { IsOpen names begun },
}

impl MtlReader {
    ghost use Rattle.std.specs.Prelude.{◌≡◌, ◌<◌, ◌++◌, ◌∷◌, [], List as Items, ℕ, IfErr, OnOk, Some, None, is_some, length};
    ghost use Rattle.abuf_num.specs.declared.limits.TheConstants.{MAX_MATERIALS};
    ghost use Rattle.abuf_text.specs.Names.{index_of};
    ghost use Rattle.abuf_mtl.specs.Said.{said_colour, said_alpha};
    ghost use Rattle.abuf_mtl.specs.Fault.{why, name_why, number_why, TellsWhy};
    ghost use Rattle.abuf_mtl.specs.Reading.{TakesBy, TakesLine, Says, Changes, with_colour, with_alpha, look, current, StartsName};

    /// A material of this name begins.
    fn start(&mut self, alloc: Global, line: u32, name: &[u8]) -> Result<(), MtlFault>
        ensures fault { IfErr result (TellsWhy line (name_why self.old.names name.now)) }
        ensures ok { (values : Items (Items ℕ)) → OnOk result (TakesBy Keyword.Material values name.now self.old self.new) }
    {
        if name.is_empty() {
            return Err(MtlFault::Line {
                line,
                why: MtlWhy::NoName,
            });
        }
        match self.names.find(name) {
            Some(index) => {
                self.begin_existing(index as usize, name);
                Ok(())
            }
            None if self.names.len() < MAX_MATERIALS => {
                self.begin_new(alloc, name)?;
                Ok(())
            }
            None => Err(MtlFault::Line {
                line,
                why: MtlWhy::TooMany,
            }),
        }
    }

    /// The material of a name that is there begins anew.
    fn begin_existing(&mut self, index: usize, name: &[u8])
        requires { index_of name.now self.old.names ≡ Some index }
        ensures starts { StartsName (look self.old) (look self.new) name.now }
        ensures current { current self.new ≡ Some name.now }
        ensures names { self.new.names ≡ self.old.names }
    {
        self.paints[index] = WHITE;
        self.begun = Some(index);
    }

    /// The material of a new name begins.
    fn begin_new(&mut self, alloc: Global, name: &[u8]) -> Result<(), NoMemory>
        requires new { index_of name.now self.old.names ≡ None }
        requires few { length self.old.names < MAX_MATERIALS }
        ensures starts { OnOk result (StartsName (look self.old) (look self.new) name.now) }
        ensures current { OnOk result (current self.new ≡ Some name.now) }
        ensures names { OnOk result (self.new.names ≡ self.old.names ++ name.now ∷ []) }
    {
        let index = self.names.len();
        self.paints.reserve(1)?;
        self.names.push(alloc, name)?;
        self.paints.push_reserved(WHITE);
        self.begun = Some(index);
        Ok(())
    }

    /// The open material has this colour.
    fn set_colour(&mut self, index: usize, colour: [u16; 3])
        requires { self.old.begun ≡ Some index }
        ensures changes { Changes (with_colour colour) self.old self.new }
        ensures names { self.new.names ≡ self.old.names }
    {
        let paint = self.paints[index];
        self.paints[index] = Paint { colour, ..paint };
    }

    /// The open material has this alpha.
    fn set_alpha(&mut self, index: usize, alpha: u16)
        requires { self.old.begun ≡ Some index }
        ensures changes { Changes (with_alpha alpha) self.old self.new }
        ensures names { self.new.names ≡ self.old.names }
    {
        let paint = self.paints[index];
        self.paints[index] = Paint { alpha, ..paint };
    }

    fn take_colour(&mut self, line: u32, colour: Option<[u16; 3]>) -> Result<(), MtlFault>
        ensures fault { IfErr result (TellsWhy line (number_why (is_some self.old.begun) (is_some colour))) }
        ensures sound { OnOk result (number_why (is_some self.old.begun) (is_some colour) ≡ None) }
        ensures says { OnOk result (Says self.old self.new (said_colour colour)) }
        ensures names { OnOk result (self.new.names ≡ self.old.names) }
    {
        match (self.begun, colour) {
            (None, _) => Err(MtlFault::Line {
                line,
                why: MtlWhy::NoMaterial,
            }),
            (Some(_), None) => Err(MtlFault::Line {
                line,
                why: MtlWhy::BadNumber,
            }),
            (Some(index), Some(colour)) => {
                self.set_colour(index, colour);
                Ok(())
            }
        }
    }

    fn take_alpha(&mut self, line: u32, alpha: Option<u16>) -> Result<(), MtlFault>
        ensures fault { IfErr result (TellsWhy line (number_why (is_some self.old.begun) (is_some alpha))) }
        ensures sound { OnOk result (number_why (is_some self.old.begun) (is_some alpha) ≡ None) }
        ensures says { OnOk result (Says self.old self.new (said_alpha alpha)) }
        ensures names { OnOk result (self.new.names ≡ self.old.names) }
    {
        match (self.begun, alpha) {
            (None, _) => Err(MtlFault::Line {
                line,
                why: MtlWhy::NoMaterial,
            }),
            (Some(_), None) => Err(MtlFault::Line {
                line,
                why: MtlWhy::BadNumber,
            }),
            (Some(index), Some(alpha)) => {
                self.set_alpha(index, alpha);
                Ok(())
            }
        }
    }

    /// Takes a line, or tells its first fault.
    pub(crate) fn take(&mut self, alloc: Global, number: u32, line: &[u8]) -> Result<(), MtlFault>
        ensures fault { IfErr result (TellsWhy number (why self.old.names (is_some self.old.begun) line.now)) }
        ensures ok { OnOk result (TakesLine line.now self.old self.new) }
    {
        let (keyword, arguments) = split_line(line);
        match keyword {
            Keyword::Material => self.start(alloc, number, rest(line)),
            Keyword::Colour => self.take_colour(number, colour(arguments)),
            Keyword::Alpha => self.take_alpha(number, alpha(arguments)),
            Keyword::Other => Ok(()),
        }
    }
}
