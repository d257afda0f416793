// The demonstration scene, in the place of the source and the shelf.
ghost use Rattle.std.specs.Prelude.{◌≡◌, ◌≤◌, ◌∷◌, [], IfOk, IfErr, IfSome, Some, codes};
ghost use Rattle.abuf_num.specs.declared.limits.TheConstants.{MAX_THREADS};
ghost use Rattle.abuf_obj.specs.Sound.{IsScene};
ghost use Rattle.abuf_io.specs.Memory.{steady_pairs};
ghost use Rattle.abuf_scene.specs.Demo.{obj};
ghost use Rattle.abuf_top.specs.Demonstration.{demo_shelf};
ghost use Rattle.abuf_top.specs.Stopped.{HasReadCause};
ghost use Rattle.abuf_top.specs.Verdict.{scene_verdict};
ghost use Rattle.abuf_top.specs.Prepared.{Loads};

use crate::load::read_text;
use crate::loaded::Loaded;
use crate::stop::Stop;
use abuf_io::SteadyShelf;
use abuf_num::{List, NoMemory};
use abuf_scene::make;
use abuf_view::Room;
use std::alloc::Global;
use std::thread::Threads;

/// A shelf of one library, under the name that the scene has for it.
fn library_shelf(alloc: Global, library: List<u8>) -> Result<SteadyShelf, NoMemory>
    ensures { IfOk result (λ shelf. steady_pairs shelf ≡ (codes "demo.mtl", library) ∷ []) }
{
    let name = Vec::from_slice(alloc, b"demo.mtl")?;
    let mut pairs = List::new(alloc);
    pairs.push((List::from_vec(name), library))?;
    Ok(SteadyShelf::new(pairs))
}

/// From how many triangles on room for their primitives is taken before their text is made. For fewer that would take longer than it
/// saves, since with large pages each place that is touched clears two megabytes.
const MANY_TRIANGLES: u32 = 16384;

/// Room for the primitives of so many triangles, if they are many.
fn room_before(alloc: Global, number: u32) -> Option<Room> {
    if number < MANY_TRIANGLES {
        None
    } else {
        Some(Room::new(alloc, number as usize))
    }
}

/// The demonstration scene of so many triangles, read on so many threads. Its text is read where it was made, since a source would
/// copy it.
pub(crate) fn demonstrate<R: Threads + Sync>(
    rt: &R,
    alloc: Global,
    number: u32,
    threads: u32,
) -> Result<Loaded, Stop>
    requires number { (1 ≤ number) × (number ≤ 200000) }
    requires threads { (1 ≤ threads) × (threads ≤ MAX_THREADS) }
    ensures told { IfSome (scene_verdict (Some demo_shelf) (obj number)) (λ verdict. Loads verdict ⊥ result) }
    ensures cause { IfErr result (HasReadCause ⊥) }
    ensures scene { IfOk result (λ loaded. IsScene loaded.obj) }
{
    let room = room_before(alloc, number);
    let Ok(made) = make(alloc, number) else {
        return Err(Stop::Memory);
    };
    let Ok(mut shelf) = library_shelf(alloc, made.library) else {
        return Err(Stop::Memory);
    };
    read_text(rt, alloc, room, made.obj, &mut shelf, threads)
}
