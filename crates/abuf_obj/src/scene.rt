// Scenes.
ghost use Rattle.std.specs.Prelude.{◌≡◌, ◌<◌, ◌-◌, ◌^◌, [], length, map, IfErr, OnOk, IfOk, None};
ghost use Rattle.abuf_text.specs.Lines.{lines};
ghost use Rattle.abuf_obj.specs.Above.{names_of, libraries_of};
ghost use Rattle.abuf_obj.specs.Faults.{fault_from, TellsFirst};
ghost use Rattle.abuf_obj.specs.Vertices.{clamped_face};
ghost use Rattle.abuf_obj.specs.Scene.{points_of, faces_of, is_astray, astray_line, points, faces, names, libraries, obj_fault};
ghost use Rattle.abuf_obj.specs.Sound.{IsScene};

use crate::face::{Face, FaceRef};
use crate::faces::{FaceSlice, Faces};
use crate::fault::{ObjFault, Why};
use crate::reader::ObjReader;
use abuf_num::{List, NoMemory};
use abuf_text::{Lines, Names};
use std::alloc::Global;
use std::marker::Model;

/// What an OBJ file defines.
#[derive(Drop)]
pub struct Obj {
    /// The points, in units of 1/65536.
    pub points: List<[i64; 3]>,
    pub faces: List<Face>,
    /// The names on `usemtl` lines, each once, in the order of first appearance.
    pub names: List<List<u8>>,
    /// The names on `mtllib` lines, in the same way.
    pub libraries: List<List<u8>>,
}

/// What an OBJ file defines, with the corners of all faces in one list, as they are read. Clauses see the [`Obj`].
#[derive(Drop)]
pub struct FlatObj {
    points: List<[i64; 3]>,
    faces: Faces,
    names: List<List<u8>>,
    libraries: List<List<u8>>,
}

impl Model for FlatObj {
    ghost use Rattle.abuf_obj.specs.declared.scene.Obj.{Obj};

    ghost Value = { Obj };

    ghost view = { λ o. record { points = o.points; faces = o.faces; names = o.names; libraries = o.libraries } };
}

impl FlatObj {
    /// The points, in units of 1/65536.
    pub fn points(&self) -> &[[i64; 3]]
        ensures { result.now ≡ self.now.points }
    {
        self.points.as_slice()
    }

    /// The faces, in the order of their lines.
    pub fn faces(&self) -> FaceSlice
        ensures { result ≡ self.now.faces }
    {
        self.faces.as_slice()
    }

    /// The names on `usemtl` lines, each once, in the order of first appearance.
    pub fn names(&self) -> &List<List<u8>>
        ensures { result.now ≡ self.now.names }
    {
        &self.names
    }

    /// The names on `mtllib` lines, in the same way.
    pub fn libraries(&self) -> &List<List<u8>>
        ensures { result.now ≡ self.now.libraries }
    {
        &self.libraries
    }

    /// The scene with a list of corners for each face. An error means that memory ran out.
    pub fn into_obj(self, alloc: Global) -> Result<Obj, NoMemory>
        ensures { IfOk result (λ obj. obj ≡ self) }
    {
        let FlatObj {
            points,
            faces,
            names,
            libraries,
        } = self;
        let faces = faces.into_list(alloc)?;
        Ok(Obj {
            points,
            faces,
            names,
            libraries,
        })
    }
}

/// Takes the lines, up to the first that is faulty.
fn read_lines(alloc: Global, bytes: &[u8]) -> Result<ObjReader, ObjFault>
    requires { length bytes.now < 2 ^ 32 - 1 }
    ensures fault { IfErr result (TellsFirst (fault_from [] (lines bytes.now))) }
    ensures sound { OnOk result (fault_from [] (lines bytes.now) ≡ None) }
    ensures points { IfOk result (λ r. r.points ≡ points_of (lines bytes.now)) }
    ensures faces { IfOk result (λ r. r.faces ≡ map clamped_face (faces_of (lines bytes.now))) }
    ensures names { IfOk result (λ r. r.names ≡ names_of (lines bytes.now)) }
    ensures libraries { IfOk result (λ r. r.libraries ≡ libraries_of (lines bytes.now)) }
{
    let mut reader = ObjReader::beginning(
        alloc,
        bytes.len(),
        0,
        Names::new(alloc),
        Names::new(alloc),
        None,
    )?;
    let mut number = 0;
    for line in Lines::new(bytes) {
        number += 1;
        reader.take(alloc, number, line)?;
    }
    Ok(reader)
}

/// What [`read_obj`] reads, with the corners of all faces in one list.
pub fn read_flat(alloc: Global, bytes: &[u8]) -> Result<FlatObj, ObjFault>
    requires { length bytes.now < 2 ^ 32 - 1 }
    ensures fault { IfErr result (TellsFirst (obj_fault bytes.now)) }
    ensures sound { OnOk result (obj_fault bytes.now ≡ None) }
    ensures points { IfOk result (λ obj. obj.points ≡ points bytes.now) }
    ensures faces { IfOk result (λ obj. obj.faces ≡ faces bytes.now) }
    ensures names { IfOk result (λ obj. obj.names ≡ names bytes.now) }
    ensures libraries { IfOk result (λ obj. obj.libraries ≡ libraries bytes.now) }
    ensures scene { IfOk result IsScene }
{
    let reader = read_lines(alloc, bytes)?;
    let obj = finish(reader);
    match first_astray(&obj) {
        Some(line) => Err(ObjFault::Line {
            line,
            why: Why::BadIndex,
        }),
        None => Ok(obj),
    }
}

/// Reads a scene, or finds its first fault: the first line that is at fault by what stands above it, or,
/// where there is none, the first face with a positive index beyond the points of the whole file.
/// Nothing is kept after a fault.
pub fn read_obj(alloc: Global, bytes: &[u8]) -> Result<Obj, ObjFault>
    requires { length bytes.now < 2 ^ 32 - 1 }
    ensures fault { IfErr result (TellsFirst (obj_fault bytes.now)) }
    ensures sound { OnOk result (obj_fault bytes.now ≡ None) }
    ensures points { IfOk result (λ obj. obj.points ≡ points bytes.now) }
    ensures faces { IfOk result (λ obj. obj.faces ≡ faces bytes.now) }
    ensures names { IfOk result (λ obj. obj.names ≡ names bytes.now) }
    ensures libraries { IfOk result (λ obj. obj.libraries ≡ libraries bytes.now) }
    ensures scene { IfOk result IsScene }
{
    let flat = read_flat(alloc, bytes)?;
    let obj = flat.into_obj(alloc)?;
    Ok(obj)
}

/// The line of the first face with a vertex at or beyond the number of points. Most files have none, so that it is soon found.
pub(crate) fn first_astray(obj: &FlatObj) -> Option<u32>
    ensures { result ≡ astray_line (length obj.now.points) obj.now.faces }
{
    let points = obj.points().len();
    let mut faces = obj.faces();
    if faces.is_within(points) {
        return None;
    }
    while let Some((face, rest)) = faces.split_first() {
        if goes_astray(points, &face) {
            return Some(face.line);
        }
        faces = rest;
    }
    None
}

fn goes_astray(points: usize, face: &FaceRef) -> bool
    ensures { result ≡ is_astray points face.now }
{
    face.corners.iter().any(|corner| points <= *corner as usize)
}

/// What was read. It is a scene if no face goes astray.
pub(crate) fn finish(reader: ObjReader) -> FlatObj
    ensures points { result.points ≡ reader.points }
    ensures faces { result.faces ≡ reader.faces }
    ensures names { result.names ≡ reader.names }
    ensures libraries { result.libraries ≡ reader.libraries }
    ensures scene { astray_line (length result.points) result.faces ≡ None → IsScene result }
{
    let ObjReader {
        points_above: _,
        points,
        faces,
        names,
        libraries,
        triangles: _,
        name: _,
    } = reader;
    FlatObj {
        points,
        faces,
        names: names.into_list(),
        libraries: libraries.into_list(),
    }
}
