// The working folder, of which nothing is told.
ghost use Rattle.std.specs.Prelude.{◌≤◌, length, IfOk, None, false};

use crate::adapters::ReadSource;
use crate::{Fetch, ReadEnd, Shelf, read_all};
use abuf_num::List;
use std::alloc::Global;
use std::fs;
use std::io::ErrorKind;
use std::rt::Files;

/// The files of the working folder, by their paths. It tells nothing of content. `Missing` comes where
/// the opening says that there is no such file; every other failure, and a name that isn't UTF-8,
/// is a fault. A limit above 2^32 - 1 counts as 2^32 - 1.
#[derive(Drop)]
pub struct FolderShelf<'a, R: Files> {
    rt: &'a R,
    calls: u64,
    faults: u64,
}

impl<'a, R: Files> FolderShelf<'a, R> {
    ghost use Rattle.std.specs.Prelude.{◌≡◌};
    ghost use Rattle.abuf_io.specs.Adapters.{folder_calls, folder_faults};

    /// A shelf that has not been asked and has not failed yet. Takes no memory.
    pub fn new(rt: &'a R) -> FolderShelf<'a, R>
        ensures calls { folder_calls result ≡ 0 }
        ensures faults { folder_faults result ≡ 0 }
    {
        FolderShelf {
            rt,
            calls: 0,
            faults: 0,
        }
    }
}

/// Reads a file. `Missing` is only that there is no such file.
fn load<R: Files>(rt: &R, alloc: Global, name: &[u8], limit: u64) -> Result<List<u8>, Fetch>
    ensures within { IfOk result (λ content. length content ≤ limit) }
{
    let Ok(path) = std::str::from_utf8(name) else {
        return Err(Fetch::Failed);
    };
    let file = match fs::open(rt, path) {
        Ok(file) => file,
        Err(error) => {
            return Err(match error.kind() {
                ErrorKind::NotFound => Fetch::Missing,
                _ => Fetch::Failed,
            });
        }
    };
    let mut source = ReadSource::new(file);
    match read_all(alloc, &mut source, limit.min(4294967295)) {
        Ok(content) => Ok(content),
        Err(ReadEnd::TooLong) => Err(Fetch::TooLong),
        Err(ReadEnd::ReadFault) => Err(Fetch::Failed),
        Err(ReadEnd::Memory) => Err(Fetch::Memory),
    }
}

impl<R: Files> Shelf for FolderShelf<'_, R> {
    ghost tells = { λ _. false };

    ghost holds = { λ _ _. None };

    ghost calls = { λ s. s.calls };

    ghost faults = { λ s. s.faults };

    fn fetch(&mut self, alloc: Global, name: &[u8], limit: u64) -> Result<List<u8>, Fetch> {
        self.calls = self.calls.saturating_add(1);
        let answer = load(self.rt, alloc, name, limit);
        if let Err(Fetch::Failed) = answer {
            self.faults = self.faults.saturating_add(1);
        }
        answer
    }
}
