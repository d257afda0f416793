// The corners of a face.
ghost use Rattle.std.specs.Prelude.{◌≡◌, ◌≤◌, [], length, map, None, Some, option_map, IfErr, IfOk, IfSome, IsTrue, OnOk};
ghost use Rattle.abuf_num.specs.declared.limits.TheConstants.{MAX_ELEMENTS};
ghost use Rattle.abuf_obj.specs.Elements.{vertices_of};
ghost use Rattle.abuf_obj.specs.Faults.{TellsWhy};
ghost use Rattle.abuf_obj.specs.Corners.{corners_why, AreCorners};
ghost use Rattle.abuf_obj.specs.Vertices.{clamped};

use crate::element::{count, next_vertex, vertices};
use crate::fault::{ObjFault, Why};
use abuf_num::List;
use abuf_num::limits::MAX_ELEMENTS;
use abuf_text::Statement;
use std::alloc::Global;
use std::marker::Model;

/// No element is left.
fn is_end(elements: &Statement) -> bool
    ensures { IsTrue result → elements.now ≡ [] }
{
    elements.text().is_empty()
}

/// The corners of a face. Three or four, which nearly all faces have, take no memory. Clauses see their list.
#[derive(Drop)]
pub(crate) struct FaceCorners {
    few: [u32; 4],
    /// How many of the few there are; where there are none, the corners are the others.
    count: usize,
    others: List<u32>,
}

impl Model for FaceCorners {
    ghost use Rattle.std.specs.Prelude.{ℕ, ◌≤◌, nat_lt, if◌then◌else◌, List as Items, take};

    ghost Value = { Items ℕ };

    ghost view = { λ c. if nat_lt 0 c.count then take c.count c.few else c.others };

    ghost invariant = { λ c. c.count ≤ 4 };
}

impl FaceCorners {
    pub(crate) fn as_slice(&self) -> &[u32]
        ensures { result.now ≡ self.now }
    {
        if self.count > 0 {
            &self.few[..self.count]
        } else {
            self.others.as_slice()
        }
    }
}

/// The vertices of three or four elements; none where they are more or fewer, or where one has no vertex. They need no count of
/// their own.
fn few_corners(alloc: Global, above: u32, mut elements: Statement) -> Option<FaceCorners>
    ensures { IfSome result (λ list. AreCorners above elements.entry list) }
{
    let Some(first) = next_vertex(&mut elements, above) else {
        return None;
    };
    let Some(second) = next_vertex(&mut elements, above) else {
        return None;
    };
    let Some(third) = next_vertex(&mut elements, above) else {
        return None;
    };
    if is_end(&elements) {
        return Some(FaceCorners {
            few: [first, second, third, 0],
            count: 3,
            others: List::new(alloc),
        });
    }
    let Some(fourth) = next_vertex(&mut elements, above) else {
        return None;
    };
    if is_end(&elements) {
        Some(FaceCorners {
            few: [first, second, third, fourth],
            count: 4,
            others: List::new(alloc),
        })
    } else {
        None
    }
}

/// The vertices of any number of elements. They are counted first, so that the list takes exactly its memory.
fn many_corners(
    alloc: Global,
    line: u32,
    above: u32,
    elements: Statement,
) -> Result<List<u32>, ObjFault>
    ensures fault { IfErr result (TellsWhy line (corners_why above elements.entry)) }
    ensures ok { OnOk result (corners_why above elements.entry ≡ None) }
    ensures value { IfOk result (λ list. Some list ≡ option_map (map clamped) (vertices_of above elements.entry)) }
    ensures count { IfOk result (λ list. length list ≡ length elements.entry) }
{
    let count = count(elements.clone());
    if count < 3 {
        return Err(Why::TooFewElements.at(line));
    }
    if MAX_ELEMENTS < count {
        return Err(Why::TooManyElements.at(line));
    }
    match vertices(alloc, above, count, elements)? {
        Some(corners) => Ok(corners),
        None => Err(Why::BadIndex.at(line)),
    }
}

/// The vertices of the elements, where they are 3 to 1024 and each has one.
pub(crate) fn corners(
    alloc: Global,
    line: u32,
    above: u32,
    elements: Statement,
) -> Result<FaceCorners, ObjFault>
    ensures fault { IfErr result (TellsWhy line (corners_why above elements.entry)) }
    ensures ok { OnOk result (corners_why above elements.entry ≡ None) }
    ensures value { IfOk result (λ list. Some list ≡ option_map (map clamped) (vertices_of above elements.entry)) }
    ensures count { IfOk result (λ list. length list ≡ length elements.entry) }
    ensures least { OnOk result (3 ≤ length elements.entry) }
    ensures most { OnOk result (length elements.entry ≤ MAX_ELEMENTS) }
{
    match few_corners(alloc, above, elements.clone()) {
        Some(corners) => Ok(corners),
        None => {
            let others = many_corners(alloc, line, above, elements)?;
            Ok(FaceCorners {
                few: [0; 4],
                count: 0,
                others,
            })
        }
    }
}
