// The paints of a scene's names.
ghost use Rattle.std.specs.Prelude.{◌≡◌, ◌<◌, All, length, map, is_some, IfOk, IfSome};
ghost use Rattle.std.specs.List.{list_all};
ghost use Rattle.abuf_obj.specs.Sound.{IsFace};
ghost use Rattle.abuf_scene.specs.Lookup.{look_up};
ghost use Rattle.abuf_scene.specs.Triangles.{paint_by, unknown_by};

use abuf_mtl::Materials;
use abuf_num::{List, NoMemory, Paint, WHITE};
use abuf_obj::FlatObj;
use std::alloc::Global;
use std::snapshot::Snapshot;

/// The paint of each name of a scene, looked up once: a million faces may have the same name.
#[derive(Drop)]
pub(crate) struct Palette {
    /// The names and the materials, for the contracts alone.
    pub(crate) names: Snapshot<List<List<u8>>>,
    pub(crate) materials: Snapshot<Materials>,
    paints: Vec<Option<Paint>>,
    ghost each: { paints.items ≡ map (look_up materials.value) names.value },
}

impl Palette {
    /// The paints that the materials have for these names.
    pub(crate) fn new(
        alloc: Global,
        names: &List<List<u8>>,
        materials: &Materials,
    ) -> Result<Palette, NoMemory>
        ensures names { IfOk result (λ palette. palette.names.value ≡ names.now) }
        ensures materials { IfOk result (λ palette. palette.materials.value ≡ materials.now) }
    {
        let mut paints = Vec::with_capacity(alloc, names.as_slice().len())?;
        for name in names.as_slice() {
            paints.push(materials.find(name.as_slice()))?;
        }
        Ok(Palette {
            names: Snapshot::of(names),
            materials: Snapshot::of(materials),
            paints,
        })
    }

    /// The paint of a face by the index of its name, if the name has a material. White and opaque without a name.
    pub(crate) fn paint_of(&self, name: Option<u32>) -> Option<Paint>
        requires { IfSome name (λ n. n < length self.now.names.value) }
        ensures { result ≡ paint_by (look_up self.now.materials.value) self.now.names.value name }
    {
        match name {
            None => Some(WHITE),
            Some(n) => self.paints[n as usize],
        }
    }

    /// Whether each name has a material.
    fn has_all(&self) -> bool
        ensures { result ≡ list_all is_some (map (look_up self.now.materials.value) self.now.names.value) }
    {
        self.paints.iter().all(|paint| paint.is_some())
    }

    /// The line of the first face of the file whose name has no material. Where each name has one, no face is looked at.
    pub(crate) fn first_unknown(&self, obj: &FlatObj) -> Option<u32>
        requires names { self.now.names.value ≡ obj.now.names }
        requires faces { All (IsFace (length obj.now.points) (length obj.now.names)) obj.now.faces }
        ensures { result ≡ unknown_by (look_up self.now.materials.value) obj.now }
    {
        if self.has_all() {
            return None;
        }
        let mut left = obj.faces();
        while let Some((face, later)) = left.split_first() {
            if self.paint_of(face.name).is_none() {
                return Some(face.line);
            }
            left = later;
        }
        None
    }
}
