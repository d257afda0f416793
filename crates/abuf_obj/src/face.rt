// A face.
use abuf_num::List;
use std::marker::Model;

/// A face of a scene, from an `f` line.
#[derive(Drop)]
pub struct Face {
    /// The number of its line, from 1.
    pub line: u32,
    /// Its vertices: the indices of its points among the points of the scene, from 0; 3 to 1024 of them.
    pub corners: List<u32>,
    /// The index of its material's name among the names of the scene, if a `usemtl` line stands above.
    pub name: Option<u32>,
}

/// A face whose corners stand elsewhere. Clauses see the [`Face`].
#[derive(Drop)]
pub struct FaceRef<'a> {
    /// The number of its line, from 1.
    pub line: u32,
    /// Its vertices: the indices of its points, from 0.
    pub corners: &'a [u32],
    /// The index of its material's name, if a `usemtl` line stands above.
    pub name: Option<u32>,
}

impl<'a> Model for FaceRef<'a> {
    ghost use Rattle.abuf_obj.specs.declared.face.Face.{Face};

    ghost Value = { Face };

    ghost view = { λ f. record { line = f.line; corners = f.corners.now; name = f.name } };
}
