// The scene and its libraries.
ghost use Rattle.std.specs.Prelude.{◌≤◌, length};
ghost use Rattle.abuf_num.specs.declared.limits.TheConstants.{MAX_BYTES};

use crate::stop::Stop;
use abuf_cli::Job;
use abuf_io::{Fetch, Shelf, Source, read_all};
use abuf_mtl::{Materials, MtlFault, read_mtl};
use abuf_num::List;
use abuf_num::limits::MAX_BYTES;
use abuf_obj::read_obj_on_threads;
use abuf_view::{FlatScene, Projected, Room};
use std::alloc::Global;
use std::thread::Threads;

/// Reads one library, which has this number.
fn read_library(
    alloc: Global,
    number: usize,
    content: &[u8],
    materials: &mut Materials,
) -> Result<(), Stop>
    requires { length content.now ≤ MAX_BYTES }
{
    match read_mtl(alloc, content, materials) {
        Ok(()) => Ok(()),
        Err(MtlFault::Line { .. }) => Err(Stop::Library { number }),
        Err(MtlFault::Memory) => Err(Stop::Memory),
    }
}

/// The materials of the libraries of these names, in order.
fn read_libraries<H: Shelf>(
    alloc: Global,
    shelf: &mut H,
    names: &[List<u8>],
) -> Result<Materials, Stop> {
    let mut materials = Materials::new(alloc);
    for i in 0..names.len() {
        let number = i + 1;
        match shelf.fetch(alloc, names[i].as_slice(), MAX_BYTES) {
            Ok(content) => read_library(alloc, number, content.as_slice(), &mut materials)?,
            Err(Fetch::Missing | Fetch::TooLong) => return Err(Stop::Library { number }),
            Err(Fetch::Failed) => return Err(Stop::Read),
            Err(Fetch::Memory) => return Err(Stop::Memory),
        }
    }
    Ok(materials)
}

/// The primitives of the scene in the source, with its libraries from the shelf, as the job's camera sees them.
pub(crate) fn load<R: Threads + Sync, S: Source, H: Shelf>(
    rt: &R,
    alloc: Global,
    job: &Job,
    source: &mut S,
    shelf: &mut H,
) -> Result<Projected, Stop> {
    let bytes = read_all(alloc, source, MAX_BYTES)?;
    let obj = read_obj_on_threads(rt, alloc, bytes.as_slice(), job.threads())?;
    let materials = read_libraries(alloc, shelf, obj.libraries().as_slice())?;
    let scene = FlatScene::new(alloc, obj, &materials)?;
    let room = Room::new(alloc, scene.triangle_count());
    let projected = scene.project(rt, room, job.camera(), job.threads())?;
    Ok(projected)
}
