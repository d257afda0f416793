// The primitives of faces, without a list of their triangles.
ghost use Rattle.std.specs.Prelude.{◌≡◌, ◌+◌, ◌≤◌, ◌<◌, ◌++◌, All, length, map, OnOk};
ghost use Rattle.abuf_obj.specs.Sound.{IsFace};
ghost use Rattle.abuf_scene.specs.Triangles.{fan, triangle, triangles_of};
ghost use Rattle.abuf_scene.specs.Lookup.{look_up};
ghost use Rattle.abuf_view.specs.Eye.{clipped_by, on_screen_by, tris_by, paints_by};
ghost use Rattle.abuf_view.specs.Chunks.{IsFaceChunk};

use crate::chunks::FaceChunk;
use crate::palette::Palette;
use crate::point_table::PointTable;
use crate::primitive_lists::PrimitiveLists;
use abuf_num::{NoMemory, Paint};
use abuf_obj::{FaceRef, FlatObj};
use abuf_scene::fan_triangle;

impl PrimitiveLists {
    /// Puts the primitives of a fan's triangle of the corners 0, i and i + 1 last. Where the table has all three corners, no
    /// point is computed.
    fn push_fan_triangle(
        &mut self,
        table: &PointTable,
        corners: &[u32],
        paint: Paint,
        i: usize,
    ) -> Result<(), NoMemory>
        requires place { i + 1 < length corners.now }
        requires points { All (λ c. c < length table.now.points.now) corners.now }
        ensures tris { OnOk result
            (self.new.tris ≡ self.old.tris ++ map (on_screen_by table.now.eye) (clipped_by table.now.eye (triangle table.now.points.now corners.now paint i))) }
        ensures paints { OnOk result
            (self.new.paints ≡ self.old.paints ++ map (λ _. paint) (clipped_by table.now.eye (triangle table.now.points.now corners.now paint i))) }
    {
        match table.fan_triangle(corners, i) {
            Some(triangle) => self.push(triangle, paint),
            None => self.push_triangle(&table.eye, &fan_triangle(table.points, corners, paint, i)),
        }
    }

    /// Puts the primitives of a fan last.
    fn push_fan(
        &mut self,
        table: &PointTable,
        corners: &[u32],
        paint: Paint,
    ) -> Result<(), NoMemory>
        requires three { 3 ≤ length corners.now }
        requires points { All (λ c. c < length table.now.points.now) corners.now }
        ensures tris { OnOk result (self.new.tris ≡ self.old.tris ++ tris_by table.now.eye (fan table.now.points.now corners.now paint)) }
        ensures paints { OnOk result (self.new.paints ≡ self.old.paints ++ paints_by table.now.eye (fan table.now.points.now corners.now paint)) }
    {
        for i in 1..corners.len() - 1 {
            self.push_fan_triangle(table, corners, paint, i)?;
        }
        Ok(())
    }

    /// Puts the primitives of a face last. A face whose name has no material has no triangles.
    fn push_face(
        &mut self,
        table: &PointTable,
        obj: &FlatObj,
        palette: &Palette,
        face: &FaceRef,
    ) -> Result<(), NoMemory>
        requires points { table.now.points.now ≡ obj.now.points }
        requires names { palette.now.names.value ≡ obj.now.names }
        requires face { IsFace (length obj.now.points) (length obj.now.names) face.now }
        ensures tris { OnOk result
            (self.new.tris ≡ self.old.tris ++ tris_by table.now.eye (triangles_of (look_up palette.now.materials.value) obj.now face.now)) }
        ensures paints { OnOk result
            (self.new.paints ≡ self.old.paints ++ paints_by table.now.eye (triangles_of (look_up palette.now.materials.value) obj.now face.now)) }
    {
        if let Some(paint) = palette.paint_of(face.name) {
            self.push_fan(table, face.corners, paint)?;
        }
        Ok(())
    }
}

/// The primitives of a chunk of the file's faces as the eye of the table sees them, by the paints of the palette, made in its room.
pub(crate) fn project_chunk(
    chunk: FaceChunk,
    table: &PointTable,
    obj: &FlatObj,
    palette: &Palette,
) -> Result<PrimitiveLists, NoMemory>
    requires points { table.now.points.now ≡ obj.now.points }
    requires names { palette.now.names.value ≡ obj.now.names }
    requires faces { All (IsFace (length obj.now.points) (length obj.now.names)) chunk.faces }
    ensures { IsFaceChunk (look_up palette.now.materials.value) obj.now table.now.eye chunk.entry.faces result }
{
    let FaceChunk { faces, room } = chunk;
    let mut made = room.with_capacity(faces.len())?.into_lists();
    let mut left = faces;
    while let Some((face, later)) = left.split_first() {
        made.push_face(table, obj, palette, &face)?;
        left = later;
    }
    Ok(made)
}
