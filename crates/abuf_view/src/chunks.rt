// Chunks of faces, put together.
ghost use Rattle.std.specs.Prelude.{◌≡◌, ◌≤◌, ◌++◌, Ok, OnOk, IfOk};
ghost use Rattle.abuf_view.specs.Chunks.{together, AreCut};

use crate::primitive_lists::PrimitiveLists;
use crate::room::Room;
use abuf_num::{List, NoMemory};
use abuf_obj::FaceSlice;
use std::alloc::Global;

/// Consecutive faces of a file, and the room in which their primitives are to be made.
#[derive(Drop)]
pub(crate) struct FaceChunk<'a> {
    pub(crate) faces: FaceSlice<'a>,
    pub(crate) room: Room,
}

/// The faces in chunks of so many; the last may have fewer. The first chunk has the room, into which the primitives of the others
/// are put behind its own; their workers take room of their own.
pub(crate) fn face_chunks<'a>(
    room: Room,
    faces: FaceSlice<'a>,
    per_chunk: usize,
) -> Result<Vec<FaceChunk<'a>>, NoMemory>
    requires { 1 ≤ per_chunk }
    ensures { IfOk result (λ chunks. AreCut per_chunk faces.entry chunks.items) }
{
    let alloc = room.alloc;
    let mut chunks = Vec::new(alloc);
    let mut room = room;
    let mut left = faces;
    while left.len() > 0 {
        let (chunk, later) = left.split_at(per_chunk.min(left.len()));
        chunks.push(FaceChunk { faces: chunk, room })?;
        room = Room::none(alloc);
        left = later;
    }
    Ok(chunks)
}

/// How many primitives the faces have where none is cut. It decides only how much memory is taken at once, so no clause tells it.
pub(crate) fn primitives_of(faces: &FaceSlice) -> usize {
    faces
        .corner_count()
        .saturating_sub(faces.len().saturating_mul(2))
}

/// Puts the items of a chunk last. Those of the first stay where they are: they have room for all.
fn append<T: Drop>(items: &mut Vec<T>, chunk: Vec<T>) -> Result<(), NoMemory>
    ensures { OnOk result (items.new.items ≡ items.old.items ++ chunk.items) }
{
    if items.is_empty() {
        *items = chunk;
        return Ok(());
    }
    let mut chunk = chunk;
    items.append(&mut chunk)?;
    Ok(())
}

/// The primitives of all chunks, in the order of the chunks.
pub(crate) fn put_together(
    alloc: Global,
    chunks: Vec<Result<PrimitiveLists, NoMemory>>,
) -> Result<PrimitiveLists, NoMemory>
    ensures { IfOk result (λ made. together chunks.items ≡ Ok made) }
{
    let mut tris = Vec::new(alloc);
    let mut paints = Vec::new(alloc);
    for chunk in chunks {
        let made = chunk?;
        append(&mut tris, made.tris.into_vec())?;
        append(&mut paints, made.paints.into_vec())?;
    }
    Ok(PrimitiveLists {
        tris: List::from_vec(tris),
        paints: List::from_vec(paints),
    })
}
