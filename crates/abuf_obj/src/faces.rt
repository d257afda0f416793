// The faces of a file, with the corners of all of them in one list.
ghost use Rattle.std.specs.Prelude.{◌≡◌, ◌<◌, ◌≤◌, ◌^◌, ◌++◌, ◌∷◌, [], All, length, take, drop, IfOk, IfSome, IsTrue, OnErr, OnOk, None};
ghost use Rattle.abuf_num.specs.declared.limits.TheConstants.{MAX_ELEMENTS, MAX_TRIANGLES};
ghost use Rattle.abuf_obj.specs.FaceRows.{corners_in, corners_of, faces_in_rows};
ghost use Rattle.abuf_obj.specs.Scene.{astray_line};

use crate::face::{Face, FaceRef};
use abuf_num::{List, NoMemory};
use std::alloc::Global;
use std::marker::Model;

/// A face but for its corners, of which there are so many.
#[derive(Clone, Copy)]
pub(crate) struct FaceRow {
    line: u32,
    count: u32,
    name: Option<u32>,
}

/// Faces, with the corners of all of them in one list. If each face had a list of its own, the lists would take twice the memory,
/// and threads that take them would wait for one another: four would read more slowly than one. Clauses see the list of the faces.
#[derive(Drop)]
pub(crate) struct Faces {
    corners: Vec<u32>,
    rows: Vec<FaceRow>,
}

impl Model for Faces {
    ghost use Rattle.std.specs.Prelude.{◌≡◌, List as Items, length};
    ghost use Rattle.abuf_obj.specs.declared.face.Face.{Face};
    ghost use Rattle.abuf_obj.specs.FaceRows.{corners_in, faces_in_rows};

    ghost Value = { Items Face };

    ghost view = { λ f. faces_in_rows f.corners.items f.rows.items };

    ghost invariant = { λ f. corners_in f.rows.items ≡ length f.corners.items };
}

/// Some of the faces of a file, one after another. Clauses see their list.
#[derive(Drop)]
pub struct FaceSlice<'a> {
    corners: &'a [u32],
    rows: &'a [FaceRow],
}

impl<'a> Model for FaceSlice<'a> {
    ghost use Rattle.std.specs.Prelude.{◌≡◌, List as Items, length};
    ghost use Rattle.abuf_obj.specs.declared.face.Face.{Face};
    ghost use Rattle.abuf_obj.specs.FaceRows.{corners_in, faces_in_rows};

    ghost Value = { Items Face };

    ghost view = { λ f. faces_in_rows f.corners.now f.rows.now };

    ghost invariant = { λ f. corners_in f.rows.now ≡ length f.corners.now };
}

/// How many corners the rows have.
fn count_corners(rows: &[FaceRow]) -> usize
    requires { corners_in rows.now < 2 ^ 64 }
    ensures { result ≡ corners_in rows.now }
{
    let mut count = 0;
    for row in rows {
        count += row.count as usize;
    }
    count
}

/// Whether all corners are below so many.
fn are_below(corners: &[u32], count: usize) -> bool
    ensures { IsTrue result → All (λ c. c < count) corners.now }
{
    corners.iter().all(|corner| (*corner as usize) < count)
}

impl<'a> FaceSlice<'a> {
    /// How many faces there are.
    pub fn len(&self) -> usize
        ensures { result ≡ length self.now }
    {
        self.rows.len()
    }

    /// How many corners they have together.
    pub fn corner_count(&self) -> usize
        ensures { result ≡ corners_of self.now }
    {
        self.corners.len()
    }

    /// Whether all corners are below so many points. It looks at no row.
    pub(crate) fn is_within(&self, points: usize) -> bool
        ensures { IsTrue result → astray_line points self.now ≡ None }
    {
        are_below(self.corners, points)
    }

    /// The first face, and those after it; `None` if there is none.
    #[inline(always)]
    pub fn split_first(&self) -> Option<(FaceRef<'a>, FaceSlice<'a>)>
        ensures some { IfSome result (λ split. self.now ≡ split.0 ∷ split.1) }
        ensures none { result ≡ None → self.now ≡ [] }
    {
        match self.rows {
            [] => None,
            [row, rows @ ..] => {
                let (own, corners) = self.corners.split_at(row.count as usize);
                let face = FaceRef {
                    line: row.line,
                    corners: own,
                    name: row.name,
                };
                Some((face, FaceSlice { corners, rows }))
            }
        }
    }

    /// So many faces, and those after them. It takes a step for each of the first.
    pub fn split_at(&self, count: usize) -> (FaceSlice<'a>, FaceSlice<'a>)
        requires { count ≤ length self.now }
        ensures first { result.0 ≡ take count self.now }
        ensures rest { result.1 ≡ drop count self.now }
    {
        let (first, rest) = self.rows.split_at(count);
        let (own, later) = self.corners.split_at(count_corners(first));
        let first = FaceSlice {
            corners: own,
            rows: first,
        };
        let rest = FaceSlice {
            corners: later,
            rows: rest,
        };
        (first, rest)
    }
}

/// The faces of these rows, each with a list of its corners.
fn faces_of(alloc: Global, corners: &[u32], rows: &[FaceRow]) -> Result<Vec<Face>, NoMemory>
    requires { corners_in rows.now ≡ length corners.now }
    ensures { IfOk result (λ faces. faces.items ≡ faces_in_rows corners.now rows.now) }
{
    let mut faces = Vec::with_capacity(alloc, rows.len())?;
    let mut rest = corners;
    for row in rows {
        let (own, later) = rest.split_at(row.count as usize);
        let corners = List::from_vec(own.to_vec(alloc)?);
        faces.push(Face {
            line: row.line,
            corners,
            name: row.name,
        })?;
        rest = later;
    }
    Ok(faces)
}

impl Faces {
    /// No faces, with room for so many of three corners.
    pub(crate) fn with_capacity(alloc: Global, faces: usize) -> Result<Faces, NoMemory>
        requires { faces ≤ MAX_TRIANGLES }
        ensures { IfOk result (λ f. f ≡ []) }
    {
        Ok(Faces {
            corners: Vec::with_capacity(alloc, 3 * faces)?,
            rows: Vec::with_capacity(alloc, faces)?,
        })
    }

    /// Puts a face last.
    pub(crate) fn push(
        &mut self,
        line: u32,
        corners: &[u32],
        name: Option<u32>,
    ) -> Result<(), NoMemory>
        requires { length corners.now ≤ MAX_ELEMENTS }
        ensures ok { OnOk result (self.new ≡ self.old ++ record { line = line; corners = corners.now; name = name } ∷ []) }
        ensures err { OnErr result (self.new ≡ self.old) }
    {
        let before = self.corners.len();
        self.corners.extend_from_slice(corners)?;
        let row = FaceRow {
            line,
            count: corners.len() as u32,
            name,
        };
        match self.rows.push(row) {
            Ok(()) => Ok(()),
            Err(_) => {
                self.corners.truncate(before);
                Err(NoMemory)
            }
        }
    }

    /// The faces of the first, and then those of the second. Most files have their points before their faces, so that there are often
    /// none in the first.
    pub(crate) fn joined(first: Faces, second: Faces) -> Result<Faces, NoMemory>
        ensures { IfOk result (λ all. all ≡ first ++ second) }
    {
        if first.rows.is_empty() {
            return Ok(second);
        }
        let Faces {
            mut corners,
            mut rows,
        } = first;
        let Faces {
            corners: mut more_corners,
            rows: mut more_rows,
        } = second;
        corners.append(&mut more_corners)?;
        rows.append(&mut more_rows)?;
        Ok(Faces { corners, rows })
    }

    /// All of them.
    pub(crate) fn as_slice(&self) -> FaceSlice
        ensures { result ≡ self.now }
    {
        FaceSlice {
            corners: &self.corners,
            rows: &self.rows,
        }
    }

    /// The faces, each with a list of its corners.
    pub(crate) fn into_list(self, alloc: Global) -> Result<List<Face>, NoMemory>
        ensures { IfOk result (λ faces. faces ≡ self) }
    {
        let faces = faces_of(alloc, &self.corners, &self.rows)?;
        Ok(List::from_vec(faces))
    }
}
