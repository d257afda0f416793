// The scene so far, line by line.
ghost use Rattle.std.specs.Prelude.{◌≡◌, ◌+◌, ◌++◌, ◌≤◌, ◌<◌, [], length, All, IfSome, IfOk};
ghost use Rattle.std.proofs.Props.{props};
ghost use Rattle.abuf_num.specs.declared.limits.TheConstants.{MAX_LIBRARIES, MAX_MATERIALS, MAX_POINTS, MAX_TRIANGLES};
ghost use Rattle.abuf_obj.specs.Sound.{IsInRange, IsFan, triangles_in};

use crate::corners::corners;
use crate::faces::Faces;
use crate::fault::{ObjFault, Why};
use crate::given_up::GivenUp;
use crate::keyword::{Keyword, split_line};
use crate::points::point;
use crate::tally::Tally;
use abuf_num::limits::{MAX_LIBRARIES, MAX_MATERIALS, MAX_POINTS, MAX_TRIANGLES};
use abuf_num::{List, NoMemory};
use abuf_text::{Names, Statement, rest};
use std::alloc::Global;

/// The line of a point or of a face has at least so many bytes with its end, and most have thirty. So a list has room for all of its
/// items, and mostly for those of the next pieces too: it isn't moved as it grows, which would leave gaps in memory. Room that isn't
/// used is never touched.
const LINE_BYTES: usize = 8;

/// What has been read so far, and the index of the name in use.
#[derive(Drop)]
pub(crate) struct ObjReader {
    /// How many points stand above the lines that it reads: none, where it reads from the first line on.
    pub(crate) points_above: u32,
    pub(crate) points: List<[i64; 3]>,
    pub(crate) faces: Faces,
    pub(crate) names: Names,
    pub(crate) libraries: Names,
    pub(crate) triangles: u32,
    pub(crate) name: Option<u32>,
    ghost few_points: { points_above + length points ≤ MAX_POINTS },
    ghost few_triangles: { triangles ≤ MAX_TRIANGLES },
    ghost few_names: { length names ≤ MAX_MATERIALS },
    ghost few_libraries: { length libraries ≤ MAX_LIBRARIES },
    ghost near: { All IsInRange points },
    ghost fans: { All (IsFan (length names)) faces } by { Prim.hlevel props },
    ghost counts: { triangles_in faces ≡ triangles },
    ghost named: { IfSome name (λ n. n < length names) } by { Prim.hlevel props },
}

impl ObjReader {
    ghost use Rattle.std.specs.Prelude.{List as Items, ℕ, IfErr, OnOk, IsTrue};
    ghost use Rattle.abuf_obj.specs.Faults.{why, why_by, TellsWhy};
    ghost use Rattle.abuf_obj.specs.Taking.{counted, TakesBy, TakesLine};
    ghost use Rattle.abuf_obj.specs.Pieces.{texts, BeginsBehind, HasNames, HasPiece, IsTally};

    /// A reader that has read nothing yet of so many bytes. So many points stand above, these names, and the one in use.
    pub(crate) fn beginning(
        alloc: Global,
        bytes: usize,
        points_above: u32,
        names: Names,
        libraries: Names,
        name: Option<u32>,
    ) -> Result<ObjReader, NoMemory>
        requires points { points_above ≤ MAX_POINTS }
        requires names { length names ≤ MAX_MATERIALS }
        requires libraries { length libraries ≤ MAX_LIBRARIES }
        requires name { IfSome name (λ n. n < length names) }
        ensures above { IfOk result (λ r. r.points_above ≡ points_above) }
        ensures points { IfOk result (λ r. r.points ≡ []) }
        ensures faces { IfOk result (λ r. r.faces ≡ []) }
        ensures triangles { IfOk result (λ r. r.triangles ≡ 0) }
        ensures names { IfOk result (λ r. r.names ≡ names) }
        ensures libraries { IfOk result (λ r. r.libraries ≡ libraries) }
        ensures name { IfOk result (λ r. r.name ≡ name) }
    {
        let lines = bytes / LINE_BYTES;
        let points = with_capacity(alloc, lines.min(MAX_POINTS))?;
        let faces = Faces::with_capacity(alloc, lines.min(MAX_TRIANGLES as usize))?;
        Ok(ObjReader {
            points_above,
            points,
            faces,
            names,
            libraries,
            triangles: 0,
            name,
        })
    }

    /// A reader of so many bytes that begins where this one stands.
    pub(crate) fn follower(&self, alloc: Global, bytes: usize) -> Result<ObjReader, NoMemory>
        ensures points { IfOk result (λ r. r.points ≡ []) }
        ensures faces { IfOk result (λ r. r.faces ≡ []) }
        ensures triangles { IfOk result (λ r. r.triangles ≡ 0) }
        ensures begins { (before : Items (Items ℕ)) → BeginsBehind before self.now → IfOk result (BeginsBehind before) }
    {
        let names = self.names.try_clone(alloc)?;
        let libraries = self.libraries.try_clone(alloc)?;
        let points_above = self.point_count() as u32;
        ObjReader::beginning(alloc, bytes, points_above, names, libraries, self.name)
    }

    /// Takes lines for their names alone.
    fn take_named(&mut self, alloc: Global, lines: &[&[u8]]) -> Result<(), ObjFault>
        ensures { (before : Items (Items ℕ)) → HasNames before self.old → OnOk result (HasNames (before ++ texts lines.now) self.new) }
    {
        for line in lines {
            self.take(alloc, 0, line)?;
        }
        Ok(())
    }

    /// A reader that begins behind a piece, of which the tally is known, where this one begins before it. Not inlined, so that it
    /// takes no room in the frames of [`read_pieces`](crate::pieces::read_pieces).
    #[inline(never)]
    pub(crate) fn behind(&self, alloc: Global, tally: &Tally) -> Result<ObjReader, GivenUp>
        ensures { (before lines : Items (Items ℕ)) → BeginsBehind before self.now → IsTally lines tally.now → IfOk result (BeginsBehind (before ++ lines)) }
    {
        let points_above = self.point_count() + tally.points as usize;
        if MAX_POINTS < points_above {
            return Err(GivenUp);
        }
        let mut reader = self.follower(alloc, 0)?;
        reader.take_named(alloc, tally.named.as_slice())?;
        let ObjReader {
            points_above: _,
            points: _,
            faces: _,
            names,
            libraries,
            triangles: _,
            name,
        } = reader;
        let points_above = points_above as u32;
        let behind = ObjReader::beginning(alloc, 0, points_above, names, libraries, name)?;
        Ok(behind)
    }

    /// What was read is that of neighbouring pieces, and not too much.
    fn may_follow(&self, second: &ObjReader) -> bool
        ensures points { IsTrue result → self.now.points_above + length self.now.points ≡ second.now.points_above }
        ensures names { IsTrue result → length self.now.names ≤ length second.now.names }
        ensures triangles { IsTrue result → self.now.triangles + second.now.triangles ≤ MAX_TRIANGLES }
    {
        self.point_count() == second.points_above as usize
            && self.names.len() <= second.names.len()
            && self.triangles + second.triangles <= MAX_TRIANGLES
    }

    /// What two readers have read, the second behind the first.
    pub(crate) fn joined(first: ObjReader, second: ObjReader) -> Result<ObjReader, GivenUp>
        ensures { (before xs ys : Items (Items ℕ)) → HasPiece before xs first → HasPiece (before ++ xs) ys second → IfOk result (HasPiece before (xs ++ ys)) }
    {
        if !first.may_follow(&second) {
            return Err(GivenUp);
        }
        let triangles = first.triangles + second.triangles;
        let points = appended(first.points, second.points)?;
        let faces = Faces::joined(first.faces, second.faces)?;
        Ok(ObjReader {
            points_above: first.points_above,
            points,
            faces,
            names: second.names,
            libraries: second.libraries,
            triangles,
            name: second.name,
        })
    }

    /// How many points have been counted: those above, and those read.
    pub(crate) fn point_count(&self) -> usize
        ensures { result ≡ (counted self.now).points }
    {
        self.points_above as usize + self.points.as_slice().len()
    }

    fn take_point(&mut self, line: u32, arguments: Statement) -> Result<(), ObjFault>
        ensures fault { (text : Items ℕ) → IfErr result (TellsWhy line (why_by (counted self.old) Keyword.Vertex arguments.entry text)) }
        ensures ok { (text : Items ℕ) → OnOk result (TakesBy line Keyword.Vertex arguments.entry text self.old self.new) }
    {
        match point(arguments) {
            None => Err(Why::BadNumber.at(line)),
            Some(_) if self.point_count() >= MAX_POINTS => Err(Why::TooManyPoints.at(line)),
            Some(point) => {
                self.points.push(point)?;
                Ok(())
            }
        }
    }

    fn take_face(&mut self, alloc: Global, line: u32, arguments: Statement) -> Result<(), ObjFault>
        ensures fault { (text : Items ℕ) → IfErr result (TellsWhy line (why_by (counted self.old) Keyword.Face arguments.entry text)) }
        ensures ok { (text : Items ℕ) → OnOk result (TakesBy line Keyword.Face arguments.entry text self.old self.new) }
    {
        let above = self.point_count() as u32;
        let corners = corners(alloc, line, above, arguments)?;
        let triangles = self.triangles + (corners.as_slice().len() as u32 - 2);
        if MAX_TRIANGLES < triangles {
            return Err(Why::TooManyTriangles.at(line));
        }
        self.faces.push(line, corners.as_slice(), self.name)?;
        self.triangles = triangles;
        Ok(())
    }

    fn take_material(&mut self, alloc: Global, line: u32, name: &[u8]) -> Result<(), ObjFault>
        ensures fault { (arguments : Items (Items ℕ)) → IfErr result (TellsWhy line (why_by (counted self.old) Keyword.Material arguments name.now)) }
        ensures ok { (arguments : Items (Items ℕ)) → OnOk result (TakesBy line Keyword.Material arguments name.now self.old self.new) }
    {
        if name.is_empty() {
            return Err(Why::NoName.at(line));
        }
        match self.names.find(name) {
            Some(index) => {
                self.name = Some(index);
                Ok(())
            }
            None if self.names.len() < MAX_MATERIALS => {
                let index = self.names.len() as u32;
                self.names.push(alloc, name)?;
                self.name = Some(index);
                Ok(())
            }
            None => Err(Why::TooManyMaterials.at(line)),
        }
    }

    fn take_library(&mut self, alloc: Global, line: u32, name: &[u8]) -> Result<(), ObjFault>
        ensures fault { (arguments : Items (Items ℕ)) → IfErr result (TellsWhy line (why_by (counted self.old) Keyword.Library arguments name.now)) }
        ensures ok { (arguments : Items (Items ℕ)) → OnOk result (TakesBy line Keyword.Library arguments name.now self.old self.new) }
    {
        if name.is_empty() {
            return Err(Why::NoName.at(line));
        }
        match self.libraries.find(name) {
            Some(_) => Ok(()),
            None if self.libraries.len() < MAX_LIBRARIES => {
                self.libraries.push(alloc, name)?;
                Ok(())
            }
            None => Err(Why::TooManyLibraries.at(line)),
        }
    }

    /// Takes a line.
    pub(crate) fn take(&mut self, alloc: Global, number: u32, line: &[u8]) -> Result<(), ObjFault>
        ensures fault { IfErr result (TellsWhy number (why (counted self.old) line.now)) }
        ensures ok { OnOk result (TakesLine number line.now self.old self.new) }
    {
        let (keyword, arguments) = split_line(line);
        match keyword {
            Keyword::Vertex => self.take_point(number, arguments),
            Keyword::Face => self.take_face(alloc, number, arguments),
            Keyword::Material => self.take_material(alloc, number, rest(line)),
            Keyword::Library => self.take_library(alloc, number, rest(line)),
            Keyword::Passed => Ok(()),
            Keyword::Refused => Err(Why::Keyword.at(number)),
        }
    }
}

/// An empty list with room for so many items.
fn with_capacity<T: Drop>(alloc: Global, count: usize) -> Result<List<T>, NoMemory>
    ensures { IfOk result (λ list. list ≡ []) }
{
    Ok(List::from_vec(Vec::with_capacity(alloc, count)?))
}

/// The items of the first list, and then those of the second. Most files have their points before their faces, so that one of the
/// lists is often empty.
fn appended<T: Drop>(first: List<T>, second: List<T>) -> Result<List<T>, NoMemory>
    ensures { IfOk result (λ all. all ≡ first ++ second) }
{
    if first.as_slice().is_empty() {
        return Ok(second);
    }
    if second.as_slice().is_empty() {
        return Ok(first);
    }
    let mut items = first.into_vec();
    let mut more = second.into_vec();
    items.append(&mut more)?;
    Ok(List::from_vec(items))
}
