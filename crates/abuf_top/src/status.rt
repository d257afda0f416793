// The statuses of a run.
ghost use Rattle.std.specs.Prelude.{◌≡◌};
ghost use Rattle.abuf_top.specs.Status.{status_number};

/// How a run ended, as its status tells. Its number is that of the process.
#[derive(Clone, Copy, Debug, PartialEq, Eq)]
pub enum Status {
    /// 0: all of the output was written.
    Written,
    /// 2: the words refuse.
    Words,
    /// 3: the scene refuses.
    Scene,
    /// 4: a library refuses.
    Library,
    /// 5: a pool has fewer nodes than there are fragments.
    PoolFull,
    /// 6: reading failed.
    ReadFault,
    /// 7: writing failed.
    WriteFault,
    /// 8: memory ran out.
    Memory,
    /// 9: the path of a sequence refuses.
    Path,
}

impl Status {
    /// The status of the process. 1 never comes.
    pub fn number(self) -> u8
        ensures { result ≡ status_number self }
    {
        match self {
            Status::Written => 0,
            Status::Words => 2,
            Status::Scene => 3,
            Status::Library => 4,
            Status::PoolFull => 5,
            Status::ReadFault => 6,
            Status::WriteFault => 7,
            Status::Memory => 8,
            Status::Path => 9,
        }
    }
}
