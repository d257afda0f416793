// Why nothing was watched.
ghost use Rattle.std.specs.Prelude.{◌≡◌};
ghost use Rattle.abuf_watching.specs.Show.{status_number};

use abuf_cli::WordFault;
use abuf_io::ReadEnd;
use abuf_num::NoMemory;
use abuf_obj::ObjFault;
use abuf_scene::SceneFault;

/// Why the program writes no report. The numbers of the statuses are those of `abuf`.
#[derive(Clone, Copy, Debug, PartialEq, Eq)]
pub enum Stop {
    /// The words aren't those of `render` without bands or layers.
    Words,
    SceneTooLong,
    /// A line of the scene is at fault, or its face has no material.
    SceneLine { line: u32 },
    /// The library of this number, from 1, is missing, too long or at fault.
    Library { number: usize },
    /// The scene has more fragments than the pool has nodes.
    Full { fragments: u64, nodes: u32 },
    Read,
    Memory,
}

impl Stop {
    /// The status of the process.
    pub fn status(self) -> u8
        ensures { result ≡ status_number self }
    {
        match self {
            Stop::Words => 2,
            Stop::SceneTooLong | Stop::SceneLine { .. } => 3,
            Stop::Library { .. } => 4,
            Stop::Full { .. } => 5,
            Stop::Read => 6,
            Stop::Memory => 8,
        }
    }
}

impl From<NoMemory> for Stop {
    ghost use Rattle.abuf_watching.specs.declared.stop.Stop.TheVariants.{Memory};

    ghost from_gives = { λ _ stop. stop ≡ Memory };

    fn from(_: NoMemory) -> Self {
        Stop::Memory
    }
}

impl From<WordFault> for Stop {
    fn from(fault: WordFault) -> Self {
        match fault {
            WordFault::Words | WordFault::Value { .. } => Stop::Words,
            WordFault::Memory => Stop::Memory,
        }
    }
}

impl From<ReadEnd> for Stop {
    fn from(end: ReadEnd) -> Self {
        match end {
            ReadEnd::ReadFault => Stop::Read,
            ReadEnd::TooLong => Stop::SceneTooLong,
            ReadEnd::Memory => Stop::Memory,
        }
    }
}

impl From<ObjFault> for Stop {
    fn from(fault: ObjFault) -> Self {
        match fault {
            ObjFault::Line { line, .. } => Stop::SceneLine { line },
            ObjFault::Memory => Stop::Memory,
        }
    }
}

impl From<SceneFault> for Stop {
    fn from(fault: SceneFault) -> Self {
        match fault {
            SceneFault::UnknownMaterial { line } => Stop::SceneLine { line },
            SceneFault::Memory => Stop::Memory,
        }
    }
}
