// Why not all images of a sequence are written.
ghost use Rattle.std.specs.Prelude.{◌≡◌, ◌<◌, ◌-◌, ◌^◌};
ghost use Rattle.abuf_sequence.specs.Single.{fault_after};

use abuf_num::NoMemory;

/// Why not all images of a sequence are written.
#[derive(Clone, Copy, Debug, PartialEq, Eq)]
pub enum SequenceFault {
    /// Some image has more fragments than there are nodes: the first such image, counted from 1, how many fragments it has, and
    /// the number of nodes. The images before it are written.
    Full {
        image: u32,
        fragments: u64,
        nodes: u32,
    },
    /// The sink failed. It comes only where its count of faults rose.
    Write,
    /// Memory ran out, after so many images were written.
    Memory {
        images: u32,
    },
}

/// Why an image isn't written.
#[derive(Clone, Copy, Debug, PartialEq, Eq)]
pub(crate) enum ImageFault {
    /// The image has so many fragments, and there are fewer nodes.
    Full { fragments: u64, nodes: u32 },
    /// The sink failed on the way.
    Write,
    /// Memory ran out.
    Memory,
}

impl From<NoMemory> for ImageFault {
    ghost use Rattle.std.specs.Prelude.{◌≡◌};
    ghost use Rattle.abuf_sequence.specs.declared.fault.ImageFault.TheVariants.{Memory};

    ghost from_gives = { λ _ fault. fault ≡ Memory };

    fn from(_: NoMemory) -> Self {
        ImageFault::Memory
    }
}

impl ImageFault {
    /// The fault of a sequence in which so many images come before this one.
    pub(crate) fn after(self, before: u32) -> SequenceFault
        requires { before < 2 ^ 32 - 1 }
        ensures { result ≡ fault_after before self }
    {
        match self {
            ImageFault::Full { fragments, nodes } => SequenceFault::Full {
                image: before + 1,
                fragments,
                nodes,
            },
            ImageFault::Write => SequenceFault::Write,
            ImageFault::Memory => SequenceFault::Memory { images: before },
        }
    }
}
