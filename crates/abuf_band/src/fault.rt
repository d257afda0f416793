// Why an image has no sums.
use abuf_num::NoMemory;
use std::alloc::AllocError;

/// Why no sums are given.
#[derive(Clone, Copy, Debug, PartialEq, Eq)]
pub enum BandFault {
    /// Some band has more fragments than there are nodes: the first such band, counted from 1, how many fragments it has, and
    /// the number of nodes that each band has.
    Full {
        band: u32,
        fragments: u64,
        nodes: u32,
    },
    /// Memory ran out.
    Memory,
}

impl From<NoMemory> for BandFault {
    ghost use Rattle.std.specs.Prelude.{◌≡◌};
    ghost use Rattle.abuf_band.specs.declared.fault.BandFault.TheVariants.{Memory};

    ghost from_gives = { λ _ fault. fault ≡ Memory };

    fn from(_: NoMemory) -> Self {
        BandFault::Memory
    }
}

impl From<AllocError> for BandFault {
    ghost use Rattle.std.specs.Prelude.{◌≡◌};
    ghost use Rattle.abuf_band.specs.declared.fault.BandFault.TheVariants.{Memory};

    ghost from_gives = { λ _ fault. fault ≡ Memory };

    fn from(_: AllocError) -> Self {
        BandFault::Memory
    }
}
