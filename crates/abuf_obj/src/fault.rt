// Why a scene isn't read.
ghost use Rattle.std.specs.Prelude.{◌≡◌};
ghost use Rattle.abuf_obj.specs.declared.fault.ObjFault.TheVariants.{Line, Memory};

use abuf_num::NoMemory;

/// What is wrong with a line of a scene.
#[derive(Clone, Copy, Debug, PartialEq, Eq)]
pub enum Why {
    /// A keyword that is refused by name, or that has a byte other than a visible ASCII character.
    Keyword,
    /// Fewer than three numbers on a `v` line, or a text among the first three that isn't a number in range.
    BadNumber,
    /// An element without the form of one, or whose point's index is 0 or names no point.
    BadIndex,
    /// Fewer than 3 elements.
    TooFewElements,
    /// More than 1024 elements.
    TooManyElements,
    /// A `usemtl` or `mtllib` line without a name.
    NoName,
    /// Point 1048577.
    TooManyPoints,
    /// The fans of the faces so far, this one included, have more than 1048576 triangles.
    TooManyTriangles,
    /// A new name of a library after 16 others.
    TooManyLibraries,
    /// A new name of a material after 4096 others.
    TooManyMaterials,
}

/// Why a scene wasn't read.
#[derive(Clone, Copy, Debug, PartialEq, Eq)]
pub enum ObjFault {
    /// The first fault of the file, with the number of its line, from 1.
    Line { line: u32, why: Why },
    /// Memory ran out.
    Memory,
}

impl From<NoMemory> for ObjFault {
    ghost from_gives = { λ _ e. e ≡ Memory };

    fn from(_: NoMemory) -> Self {
        ObjFault::Memory
    }
}

impl Why {
    /// The fault of this cause at a line.
    pub(crate) fn at(self, line: u32) -> ObjFault
        ensures { result ≡ Line line self }
    {
        ObjFault::Line { line, why: self }
    }
}
