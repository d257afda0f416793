// The libraries of a scene, from a shelf.
ghost use Rattle.std.specs.Prelude.{◌≡◌, ◌≤◌, ◌<◌, ◌+◌, ◌++◌, ◌∷◌, ◌^◌, [], List as Items, ℕ, length, true};
ghost use Rattle.std.specs.Prelude.{None, Some, IfSome, IfErr, IsOkAnd, MatchResult};
ghost use Rattle.abuf_num.specs.declared.limits.TheConstants.{MAX_BYTES};
ghost use Rattle.abuf_io.specs.Causes.{Rose};
ghost use Rattle.abuf_mtl.specs.Fault.{library_fault};
ghost use Rattle.abuf_mtl.specs.StandsFor.{StandsFor};
ghost use Rattle.abuf_top.specs.Libraries.{library_refusal, line_refusal, first_refusal, asked, contents};
ghost use Rattle.abuf_top.specs.Stopped.{StoppedBy, HasReadCause};

use crate::stop::{Refusal, Stop};
use abuf_io::{Fetch, Shelf};
use abuf_mtl::{Materials, MtlFault, read_mtl};
use abuf_num::List;
use abuf_num::limits::MAX_BYTES;
use std::alloc::Global;

/// Reads the content of library `number`.
fn read_content(
    alloc: Global,
    number: usize,
    content: &[u8],
    materials: &mut Materials,
) -> Result<(), Stop>
    requires { length content.now ≤ MAX_BYTES }
    ensures told { (before : Items (Items ℕ)) → StandsFor before materials.old → MatchResult result
        (λ _. (library_fault before content.now ≡ None) × StandsFor (before ++ content.now ∷ []) materials.new)
        (StoppedBy (line_refusal number (library_fault before content.now)) ⊥) }
    ensures cause { IfErr result (HasReadCause ⊥) }
{
    match read_mtl(alloc, content, materials) {
        Ok(()) => Ok(()),
        Err(MtlFault::Line { line, why }) => {
            Err(Stop::Refused(Refusal::LibraryLine(number, line, why)))
        }
        Err(MtlFault::Memory) => Err(Stop::Memory),
    }
}

/// Fetches library `number` and reads it.
fn read_library<H: Shelf>(
    alloc: Global,
    shelf: &mut H,
    number: usize,
    name: &[u8],
    materials: &mut Materials,
) -> Result<(), Stop>
    ensures told { H.tells shelf.old ≡ true → (before : Items (Items ℕ)) → StandsFor before materials.old → MatchResult result
        (λ _. (library_refusal number before (H.holds shelf.old name.now) ≡ None)
        × IfSome (H.holds shelf.old name.now) (λ content. StandsFor (before ++ content ∷ []) materials.new))
        (StoppedBy (library_refusal number before (H.holds shelf.old name.now)) (Rose (H.faults shelf.old) (H.faults shelf.new))) }
    ensures cause { IfErr result (HasReadCause (Rose (H.faults shelf.old) (H.faults shelf.new))) }
    ensures tells { H.tells shelf.new ≡ H.tells shelf.old }
    ensures holds { (other : Items ℕ) → H.holds shelf.new other ≡ H.holds shelf.old other }
    ensures calls { H.calls shelf.new ≤ H.calls shelf.old + 1 }
    ensures later { H.faults shelf.old ≤ H.faults shelf.new }
{
    match shelf.fetch(alloc, name, MAX_BYTES) {
        Ok(content) => read_content(alloc, number, content.as_slice(), materials),
        Err(Fetch::Missing) => Err(Stop::Refused(Refusal::LibraryMissing(number))),
        Err(Fetch::TooLong) => Err(Stop::Refused(Refusal::LibraryTooLong(number))),
        Err(Fetch::Failed) => Err(Stop::ReadFault),
        Err(Fetch::Memory) => Err(Stop::Memory),
    }
}

/// Reads the libraries of these names in order, up to the first that is refused: one is read before the next is fetched,
/// and none is fetched after one that is refused.
pub(crate) fn read_libraries<H: Shelf>(
    alloc: Global,
    shelf: &mut H,
    names: &[List<u8>],
) -> Result<Materials, Stop>
    ensures told { H.tells shelf.old ≡ true → MatchResult result
        (λ materials. (first_refusal (H.holds shelf.old) names.now ≡ None) × StandsFor (contents (H.holds shelf.old) names.now) materials)
        (StoppedBy (first_refusal (H.holds shelf.old) names.now) (Rose (H.faults shelf.old) (H.faults shelf.new))) }
    ensures none { names.now ≡ [] → IsOkAnd result (StandsFor []) }
    ensures cause { IfErr result (HasReadCause (Rose (H.faults shelf.old) (H.faults shelf.new))) }
    ensures calls { H.tells shelf.old ≡ true → H.calls shelf.new ≤ H.calls shelf.old + asked (H.holds shelf.old) names.now }
    ensures most { H.calls shelf.new ≤ H.calls shelf.old + length names.now }
    ensures later { H.faults shelf.old ≤ H.faults shelf.new }
    ensures still { names.now ≡ [] → (H.calls shelf.new ≡ H.calls shelf.old) × (H.faults shelf.new ≡ H.faults shelf.old) }
{
    let mut materials = Materials::new(alloc);
    let mut number = 0;
    for name in names {
        number += 1;
        read_library(alloc, shelf, number, name.as_slice(), &mut materials)?;
    }
    Ok(materials)
}
