// The scene of a file's faces.
ghost use Rattle.std.specs.Prelude.{◌≡◌, ◌+◌, ◌-◌, ◌++◌, All, List as Items, ℕ, length, None, OnOk, IfOk, IfErr};
ghost use Rattle.abuf_obj.specs.Sound.{IsFace, IsInRange, triangles_in};
ghost use Rattle.abuf_mtl.specs.StandsFor.{StandsFor};
ghost use Rattle.abuf_scene.specs.Triangles.{paint_by, triangles_of, triangles_by, unknown_by, triangles, unknown, Tells, IsTriangleInRange};
ghost use Rattle.abuf_scene.specs.Lookup.{look_up, line_if_none};
ghost use Rattle.abuf_scene.specs.declared.assembly.SceneFault.TheVariants.{Memory};

use crate::triangle_fans::{paint_of, push_fan};
use crate::triangles::{Scene, Triangle};
use abuf_mtl::Materials;
use abuf_num::{List, NoMemory};
use abuf_obj::{Face, Obj};
use std::alloc::Global;

/// Why there is no scene.
#[derive(Clone, Copy, Debug, PartialEq, Eq)]
pub enum SceneFault {
    /// The first face whose name has no material, by the number of its line, from 1.
    UnknownMaterial { line: u32 },
    /// Memory ran out.
    Memory,
}

impl From<NoMemory> for SceneFault {
    ghost from_gives = { λ _ fault. fault ≡ Memory };

    fn from(_: NoMemory) -> Self {
        SceneFault::Memory
    }
}

/// Puts the face's triangles last, or refuses a name without a material.
fn push_face(
    triangles: &mut List<Triangle>,
    obj: &Obj,
    materials: &Materials,
    face: &Face,
) -> Result<(), SceneFault>
    requires { IsFace (length obj.now.points) (length obj.now.names) face.now }
    ensures fault { IfErr result (Tells (line_if_none face.now.line (paint_by (look_up materials.now) obj.now.names face.now.name))) }
    ensures known { OnOk result (line_if_none face.now.line (paint_by (look_up materials.now) obj.now.names face.now.name) ≡ None) }
    ensures triangles { OnOk result (triangles.new ≡ triangles.old ++ triangles_of (look_up materials.now) obj.now face.now) }
    ensures count { OnOk result (length triangles.new ≡ length triangles.old + (length face.now.corners - 2)) }
    ensures near { All IsInRange obj.now.points → All IsTriangleInRange triangles.old → OnOk result (All IsTriangleInRange triangles.new) }
{
    match paint_of(materials, obj.names.as_slice(), face.name) {
        None => Err(SceneFault::UnknownMaterial { line: face.line }),
        Some(paint) => {
            push_fan(
                triangles,
                obj.points.as_slice(),
                face.corners.as_slice(),
                paint,
            )?;
            Ok(())
        }
    }
}

/// The triangles of all faces, by the paints that the materials have.
fn all_fans(alloc: Global, obj: &Obj, materials: &Materials) -> Result<List<Triangle>, SceneFault>
    requires { All (IsFace (length obj.now.points) (length obj.now.names)) obj.now.faces }
    ensures fault { IfErr result (Tells (unknown_by (look_up materials.now) obj.now)) }
    ensures known { OnOk result (unknown_by (look_up materials.now) obj.now ≡ None) }
    ensures triangles { IfOk result (λ list. list ≡ triangles_by (look_up materials.now) obj.now) }
    ensures count { IfOk result (λ list. length list ≡ triangles_in obj.now.faces) }
    ensures near { All IsInRange obj.now.points → IfOk result (λ list. All IsTriangleInRange list) }
{
    let mut triangles = List::new(alloc);
    for face in obj.faces.as_slice() {
        push_face(&mut triangles, obj, materials, face)?;
    }
    Ok(triangles)
}

/// The triangles of all faces, in order, or the line of the first face whose name has no material. The
/// first three clauses speak of the materials by their names and paints alone, the next three of every list
/// of libraries that they stand for. A face without a name has the paint of a new material: a colour and an
/// alpha of 65535.
///
/// No more is asked than that each face has three corners or more, each of them one of the points, and that its name, if it has one,
/// is one of the names. Points that are in range give triangles that are.
pub fn assemble(alloc: Global, obj: &Obj, materials: &Materials) -> Result<Scene, SceneFault>
    requires { All (IsFace (length obj.now.points) (length obj.now.names)) obj.now.faces }
    ensures fault_by_name { IfErr result (Tells (unknown_by (look_up materials.now) obj.now)) }
    ensures known_by_name { OnOk result (unknown_by (look_up materials.now) obj.now ≡ None) }
    ensures triangles_by_name { IfOk result (λ s. s.triangles ≡ triangles_by (look_up materials.now) obj.now) }
    ensures fault { (libraries : Items (Items ℕ)) → StandsFor libraries materials.now → IfErr result (Tells (unknown libraries obj.now)) }
    ensures known { (libraries : Items (Items ℕ)) → StandsFor libraries materials.now → OnOk result (unknown libraries obj.now ≡ None) }
    ensures triangles { (libraries : Items (Items ℕ)) → StandsFor libraries materials.now →
        IfOk result (λ s. s.triangles ≡ triangles libraries obj.now) }
    ensures count { IfOk result (λ scene. length scene.triangles ≡ triangles_in obj.now.faces) }
    ensures near { All IsInRange obj.now.points → IfOk result (λ scene. All IsTriangleInRange scene.triangles) }
{
    let list = all_fans(alloc, obj, materials)?;
    Ok(Scene { triangles: list })
}
