// Memory for the primitives of a scene.
ghost use Rattle.std.specs.Prelude.{◌≡◌, [], IfOk};

use crate::primitive_lists::PrimitiveLists;
use abuf_num::{List, NoMemory, Paint};
use abuf_raster::ScreenTri;
use std::alloc::Global;
use std::marker::Model;

/// Memory in which the primitives of a scene are to be made. If it is taken before the scene is read, it lies below all that is read.
/// What is freed then is one piece, into which the words of a frame fit. Memory that isn't used is never touched. Clauses see the
/// triangles and the paints that are there already: none.
#[derive(Drop)]
pub struct Room {
    pub(crate) alloc: Global,
    tris: Vec<ScreenTri>,
    paints: Vec<Paint>,
}

impl Model for Room {
    ghost use Rattle.std.specs.Prelude.{◌≡◌, [], List as Items};
    ghost use Rattle.abuf_num.specs.declared.plain.Paint.{Paint};
    ghost use Rattle.abuf_raster.specs.Triangle.{Triangle};

    ghost Value = { Items Triangle × Items Paint };

    ghost view = { λ r. (r.tris.items, r.paints.items) };

    ghost invariant = { λ r. (r.tris.items ≡ []) × (r.paints.items ≡ []) };
}

impl Room {
    /// Room that takes no memory yet.
    pub(crate) fn none(alloc: Global) -> Room
        ensures { result ≡ ([], []) }
    {
        Room {
            alloc,
            tris: Vec::new(alloc),
            paints: Vec::new(alloc),
        }
    }

    /// Room for so many primitives. If there is no memory for all of them, more is taken while they are made.
    pub fn new(alloc: Global, count: usize) -> Room
        ensures { result ≡ ([], []) }
    {
        match Room::none(alloc).with_capacity(count) {
            Ok(room) => room,
            Err(NoMemory) => Room::none(alloc),
        }
    }

    /// This room, with memory for at least so many primitives.
    pub(crate) fn with_capacity(self, count: usize) -> Result<Room, NoMemory>
        ensures { IfOk result (λ room. room ≡ ([], [])) }
    {
        let Room {
            alloc,
            mut tris,
            mut paints,
        } = self;
        tris.reserve_exact(count)?;
        paints.reserve_exact(count)?;
        Ok(Room {
            alloc,
            tris,
            paints,
        })
    }

    /// No primitives, in this room.
    pub(crate) fn into_lists(self) -> PrimitiveLists
        ensures tris { result.tris ≡ [] }
        ensures paints { result.paints ≡ [] }
    {
        PrimitiveLists {
            tris: List::from_vec(self.tris),
            paints: List::from_vec(self.paints),
        }
    }
}
