// Materials by their names.
ghost use Rattle.std.specs.Prelude.{◌≡◌, ◌<◌, ◌≤◌, ◌-◌, ◌^◌, ◌++◌, ◌∷◌, [], List as Items, ℕ, length, None, IfErr, IfOk, OnOk, OnErr};
ghost use Rattle.std.specs.List.{zip};
ghost use Rattle.abuf_text.specs.Lines.{lines};
ghost use Rattle.abuf_mtl.specs.Fault.{library_fault, fault_from, TellsFirst};
ghost use Rattle.abuf_mtl.specs.Material.{material};
ghost use Rattle.abuf_mtl.specs.Reading.{ReadsAll};
ghost use Rattle.abuf_mtl.specs.StandsFor.{StandsFor, StandForSome, find_paint};

use crate::fault::MtlFault;
use crate::reader::MtlReader;
use abuf_num::{NoMemory, Paint};
use abuf_text::{Lines, Names};
use std::alloc::Global;
use std::marker::Model;

/// Materials: each name once, with its paint, at most [`MAX_MATERIALS`](abuf_num::limits::MAX_MATERIALS) of them. They stand for
/// some list of libraries at any time.
#[derive(Drop)]
pub struct Materials {
    names: Names,
    paints: Vec<Paint>,
}

impl Model for Materials {
    ghost use Rattle.std.specs.Prelude.{◌≡◌, ◌≤◌, List as Items, ℕ, length};
    ghost use Rattle.std.specs.List.{zip};
    ghost use Rattle.abuf_num.specs.declared.limits.TheConstants.{MAX_MATERIALS};
    ghost use Rattle.abuf_num.specs.declared.plain.Paint.{Paint as Painted};
    ghost use Rattle.abuf_mtl.specs.StandsFor.{StandForSome};

    ghost Value = { Items (Items ℕ × Painted) };

    ghost view = { λ m. zip m.names m.paints.items };

    ghost invariant = { λ m. (length m.paints.items ≡ length m.names) × (length m.names ≤ MAX_MATERIALS) × StandForSome (zip m.names m.paints.items) };
}

impl Materials {
    /// No materials: they stand for no library. Takes no memory.
    pub fn new(alloc: Global) -> Materials
        ensures empty { result ≡ [] }
        ensures stands { StandsFor [] result }
    {
        Materials {
            names: Names::new(alloc),
            paints: Vec::new(alloc),
        }
    }

    /// The paint of a name, if it is there: that of the name's last `newmtl` over the libraries that the
    /// materials stand for.
    pub fn find(&self, name: &[u8]) -> Option<Paint>
        ensures found { result ≡ find_paint name.now self.now }
        ensures material { (libraries : Items (Items ℕ)) → StandsFor libraries self.now → result ≡ material libraries name.now }
    {
        match self.names.find(name) {
            Some(index) => Some(self.paints[index as usize]),
            None => None,
        }
    }

    /// A reader that begins with a copy of these materials.
    fn reader(&self, alloc: Global) -> Result<MtlReader, NoMemory>
        ensures same { IfOk result (λ r. zip r.names r.paints.items ≡ self.now) }
        ensures closed { IfOk result (λ r. r.begun ≡ None) }
        ensures stand { StandForSome self.now }
    {
        Ok(MtlReader {
            names: self.names.try_clone(alloc)?,
            paints: self.paints.as_slice().to_vec(alloc)?,
            begun: None,
        })
    }
}

/// Materials always stand for some list of libraries, so what holds of them for each list that they stand for is said of a
/// list that there is.
pub fn materials_law(materials: &Materials)
    ensures { StandForSome materials.now }
{
    let _names = &materials.names;
}

/// Takes the lines of a library, up to the first with a fault.
fn read_lines(alloc: Global, bytes: &[u8], reader: &mut MtlReader) -> Result<(), MtlFault>
    requires short { length bytes.now < 2 ^ 32 - 1 }
    requires closed { reader.old.begun ≡ None }
    ensures fault { IfErr result (TellsFirst (fault_from reader.old.names [] (lines bytes.now))) }
    ensures ok { OnOk result (ReadsAll (lines bytes.now) reader.old reader.new) }
{
    let mut number = 0;
    for line in Lines::new(bytes) {
        number += 1;
        reader.take(alloc, number, line)?;
    }
    Ok(())
}

/// Reads a library after those that the materials stand for. A material begins white and opaque; the last
/// `Kd` and the last `d` of a material hold, and the last `newmtl` of a name. After any error, also where
/// memory runs out, `into` is unchanged.
pub fn read_mtl(alloc: Global, bytes: &[u8], into: &mut Materials) -> Result<(), MtlFault>
    requires { length bytes.now < 2 ^ 32 - 1 }
    ensures fault { (libraries : Items (Items ℕ)) → StandsFor libraries into.old → IfErr result (TellsFirst (library_fault libraries bytes.now)) }
    ensures sound { (libraries : Items (Items ℕ)) → StandsFor libraries into.old → OnOk result (library_fault libraries bytes.now ≡ None) }
    ensures ok { (libraries : Items (Items ℕ)) → StandsFor libraries into.old → OnOk result (StandsFor (libraries ++ bytes.now ∷ []) into.new) }
    ensures unchanged { OnErr result (into.new ≡ into.old) }
{
    let mut reader = into.reader(alloc)?;
    read_lines(alloc, bytes, &mut reader)?;
    let MtlReader {
        names,
        paints,
        begun: _,
    } = reader;
    *into = Materials { names, paints };
    Ok(())
}
