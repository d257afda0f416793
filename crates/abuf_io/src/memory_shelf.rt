// A shelf over memory.
ghost use Rattle.std.specs.Prelude.{◌≡◌, Err, true, option_copied};
ghost use Rattle.abuf_io.specs.Fetching.{held, IsFetch};

use crate::{Fetch, Shelf};
use abuf_num::List;
use std::alloc::Global;

/// A shelf over memory that never fails.
#[derive(Drop)]
pub struct SteadyShelf {
    pairs: List<(List<u8>, List<u8>)>,
    calls: u64,
}

/// The content under a name, of the first pair that has it.
fn find<'a>(pairs: &'a [(List<u8>, List<u8>)], name: &[u8]) -> Option<&'a [u8]>
    ensures { option_copied result ≡ held pairs.now name.now }
{
    pairs
        .iter()
        .find(|pair| pair.0.as_slice() == name)
        .map(|pair| pair.1.as_slice())
}

/// A copy of the content under a name, if it isn't too long.
pub(crate) fn copy(
    alloc: Global,
    pairs: &[(List<u8>, List<u8>)],
    name: &[u8],
    limit: u64,
) -> Result<List<u8>, Fetch>
    ensures content { IsFetch true (held pairs.now name.now) limit result }
    ensures steady { result ≡ Err Fetch.Failed → ⊥ }
{
    let content = find(pairs, name).ok_or(Fetch::Missing)?;
    if content.len() as u64 > limit {
        return Err(Fetch::TooLong);
    }
    match content.to_vec(alloc) {
        Ok(copy) => Ok(List::from_vec(copy)),
        Err(_) => Err(Fetch::Memory),
    }
}

impl SteadyShelf {
    ghost use Rattle.abuf_io.specs.Memory.{steady_pairs, steady_calls};

    /// Under each name, the content of its first pair. Takes no memory.
    pub fn new(pairs: List<(List<u8>, List<u8>)>) -> SteadyShelf
        ensures pairs { steady_pairs result ≡ pairs }
        ensures calls { steady_calls result ≡ 0 }
    {
        SteadyShelf { pairs, calls: 0 }
    }
}

impl Shelf for SteadyShelf {
    ghost tells = { λ _. true };

    ghost holds = { λ s name. held s.pairs name };

    ghost calls = { λ s. s.calls };

    ghost faults = { λ _. 0 };

    fn fetch(&mut self, alloc: Global, name: &[u8], limit: u64) -> Result<List<u8>, Fetch> {
        self.calls = self.calls.saturating_add(1);
        copy(alloc, self.pairs.as_slice(), name, limit)
    }
}
