// The primitives of a file's faces, on threads.
ghost use Rattle.std.specs.Prelude.{◌≡◌, ◌*◌, ◌≤◌, ◌<◌, IfOk};
ghost use Rattle.abuf_num.specs.declared.limits.TheConstants.{MAX_THREADS};
ghost use Rattle.abuf_obj.specs.Sound.{IsScene};
ghost use Rattle.abuf_scene.specs.Lookup.{look_up};
ghost use Rattle.abuf_view.specs.Chunks.{AreFaceChunks, IsFaceChunk};

use crate::chunks::{FaceChunk, face_chunks, primitives_of, put_together};
use crate::palette::Palette;
use crate::point_table::PointTable;
use crate::primitive_lists::PrimitiveLists;
use crate::primitive_lists::faces::project_chunk;
use crate::room::Room;
use abuf_num::NoMemory;
use abuf_obj::FlatObj;
use abuf_share::map_jobs;
use std::thread::Threads;

/// The least number of faces for each of several workers. Starting a thread takes as long as making the primitives of some
/// hundred faces.
pub(crate) const MIN_FACES: usize = 4096;

/// How many faces a chunk has, so that no worker has two chunks: the longest is as short as whole faces allow, and there is one
/// chunk alone where two workers would have fewer than the least number each.
pub(crate) fn faces_per_chunk(faces: usize, least: usize, threads: u32) -> usize
    requires least { 1 ≤ least }
    requires threads { (1 ≤ threads) × (threads ≤ MAX_THREADS) }
    ensures some { 1 ≤ result }
    ensures workers { faces ≤ result * threads }
    ensures few { faces < 2 * least → faces ≤ result }
{
    let workers = (faces / least).clamp(1, threads as usize);
    faces.div_ceil(workers).max(1)
}

/// What the workers give of all faces, each of a chunk of so many. The first makes its primitives in the room.
fn project_chunks<R: Threads + Sync>(
    rt: &R,
    room: Room,
    table: &PointTable,
    obj: &FlatObj,
    palette: &Palette,
    per_chunk: usize,
) -> Result<Vec<Result<PrimitiveLists, NoMemory>>, NoMemory>
    requires points { table.now.points.now ≡ obj.now.points }
    requires names { palette.now.names.value ≡ obj.now.names }
    requires scene { IsScene obj.now }
    requires per_chunk { 1 ≤ per_chunk }
    ensures { IfOk result (λ chunks. AreFaceChunks (look_up palette.now.materials.value) obj.now table.now.eye per_chunk obj.now.faces chunks.items) }
{
    let alloc = room.alloc;
    let chunks = face_chunks(room, obj.faces(), per_chunk)?;
    map_jobs(
        rt,
        alloc,
        chunks,
        &|chunk| project_chunk(chunk, table, obj, palette),
    )
}

/// The primitives of all faces as the eye of the table sees them, by the paints of the palette, made in the room. Where one chunk of
/// so many faces has all of them, no thread is started.
pub(crate) fn all_faces<R: Threads + Sync>(
    rt: &R,
    room: Room,
    table: &PointTable,
    obj: &FlatObj,
    palette: &Palette,
    per_chunk: usize,
) -> Result<PrimitiveLists, NoMemory>
    requires points { table.now.points.now ≡ obj.now.points }
    requires names { palette.now.names.value ≡ obj.now.names }
    requires scene { IsScene obj.now }
    requires per_chunk { 1 ≤ per_chunk }
    ensures { IsFaceChunk (look_up palette.now.materials.value) obj.now table.now.eye obj.now.faces result }
{
    let faces = obj.faces();
    if faces.len() <= per_chunk {
        return project_chunk(FaceChunk { faces, room }, table, obj, palette);
    }
    let alloc = room.alloc;
    let room = room.with_capacity(primitives_of(&faces))?;
    let chunks = project_chunks(rt, room, table, obj, palette, per_chunk)?;
    put_together(alloc, chunks)
}
