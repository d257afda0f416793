// Why a library isn't read.
ghost use Rattle.std.specs.Prelude.{◌≡◌};
ghost use Rattle.abuf_mtl.specs.declared.fault.MtlFault.TheVariants.{Memory};

use abuf_num::NoMemory;

/// What is wrong with a line of a library.
#[derive(Clone, Copy, Debug, PartialEq, Eq)]
pub enum MtlWhy {
    /// A `newmtl` without a name.
    NoName,
    /// A `newmtl` with a new name, where [`MAX_MATERIALS`](abuf_num::limits::MAX_MATERIALS) names are there.
    TooMany,
    /// A `Kd` or a `d` with no `newmtl` above it in this library.
    NoMaterial,
    /// A `Kd` without a number or with two, a `d` without one, or a text that isn't a number within
    /// the limits of `abuf_num::scaled`.
    BadNumber,
}

/// Why a library wasn't read.
#[derive(Clone, Copy, Debug, PartialEq, Eq)]
pub enum MtlFault {
    /// The first line with a fault, counted from 1, and its first fault.
    Line { line: u32, why: MtlWhy },
    /// Memory ran out.
    Memory,
}

impl From<NoMemory> for MtlFault {
    ghost from_gives = { λ _ e. e ≡ Memory };

    fn from(_: NoMemory) -> Self {
        MtlFault::Memory
    }
}
