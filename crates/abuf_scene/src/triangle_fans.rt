// The triangles of one face.
ghost use Rattle.std.specs.Prelude.{◌≡◌, ◌≤◌, ◌<◌, ◌+◌, ◌-◌, ◌++◌, All, length, OnOk, IfSome};
ghost use Rattle.abuf_obj.specs.Sound.{IsInRange};
ghost use Rattle.abuf_scene.specs.Triangles.{corner, triangle, fan, paint_by, IsTriangleInRange};
ghost use Rattle.abuf_scene.specs.Lookup.{look_up};

use crate::triangles::Triangle;
use abuf_mtl::Materials;
use abuf_num::{List, NoMemory, Paint, WHITE};

/// The point of the corner in this place.
fn corner(points: &[[i64; 3]], corners: &[u32], i: usize) -> [i64; 3]
    requires place { i < length corners.now }
    requires points { All (λ c. c < length points.now) corners.now }
    ensures point { result ≡ corner points.now corners.now i }
    ensures near { All IsInRange points.now → IsInRange result }
{
    points[corners[i] as usize]
}

/// The triangle of a face's corners 0, i and i + 1. It takes the places of the corners among the points.
pub fn fan_triangle(points: &[[i64; 3]], corners: &[u32], paint: Paint, i: usize) -> Triangle
    requires place { i + 1 < length corners.now }
    requires points { All (λ c. c < length points.now) corners.now }
    ensures value { result ≡ triangle points.now corners.now paint i }
    ensures near { All IsInRange points.now → IsTriangleInRange result }
{
    Triangle {
        a: corner(points, corners, 0),
        b: corner(points, corners, i),
        c: corner(points, corners, i + 1),
        paint,
    }
}

/// Puts the face's triangles last.
pub(crate) fn push_fan(
    triangles: &mut List<Triangle>,
    points: &[[i64; 3]],
    corners: &[u32],
    paint: Paint,
) -> Result<(), NoMemory>
    requires three { 3 ≤ length corners.now }
    requires points { All (λ c. c < length points.now) corners.now }
    ensures fan { OnOk result (triangles.new ≡ triangles.old ++ fan points.now corners.now paint) }
    ensures count { OnOk result (length triangles.new ≡ length triangles.old + (length corners.now - 2)) }
    ensures near { All IsInRange points.now → All IsTriangleInRange triangles.old → OnOk result (All IsTriangleInRange triangles.new) }
{
    for i in 1..corners.len() - 1 {
        triangles.push(fan_triangle(points, corners, paint, i))?;
    }
    Ok(())
}

/// The paint of a face by the index of its name among the names, if the name has a material. White and opaque without a name.
pub fn paint_of(materials: &Materials, names: &[List<u8>], name: Option<u32>) -> Option<Paint>
    requires { IfSome name (λ n. n < length names.now) }
    ensures { result ≡ paint_by (look_up materials.now) names.now name }
{
    match name {
        None => Some(WHITE),
        Some(n) => materials.find(names[n as usize].as_slice()),
    }
}
