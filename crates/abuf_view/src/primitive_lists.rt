// Primitives while they are made.
ghost use Rattle.std.specs.Prelude.{◌≡◌, ◌≤◌, ◌++◌, ◌∷◌, [], map, length, option_to_list, OnOk, IfOk, IfSome};
ghost use Rattle.abuf_num.specs.declared.limits.TheConstants.{MAX_PRIMITIVES};
ghost use Rattle.abuf_scene.specs.Triangles.{IsTriangleInRange};
ghost use Rattle.abuf_view.specs.Eye.{IsEye, clipped_by, on_screen_by};
ghost use Rattle.abuf_view.specs.NearPlane.{IsInFront};

pub(crate) mod faces;

use crate::eye::Eye;
use crate::near_plane::{EyeTriangle, clip};
use crate::point::Point3;
use crate::projection::Projected;
use crate::screen::on_screen;
use abuf_num::{List, NoMemory, Paint};
use abuf_raster::ScreenTri;
use abuf_scene::Triangle;
use std::alloc::Global;

/// The triangles on the screen that there are so far, and their paints. [`Projected`] is what they become.
#[derive(Drop)]
pub(crate) struct PrimitiveLists {
    pub(crate) tris: List<ScreenTri>,
    pub(crate) paints: List<Paint>,
}

impl PrimitiveLists {
    /// Puts one primitive last.
    pub(crate) fn push(&mut self, triangle: ScreenTri, paint: Paint) -> Result<(), NoMemory>
        ensures tris { OnOk result (self.new.tris ≡ self.old.tris ++ triangle ∷ []) }
        ensures paints { OnOk result (self.new.paints ≡ self.old.paints ++ paint ∷ []) }
    {
        self.tris.push(triangle)?;
        self.paints.push(paint)
    }

    /// Puts a clipped triangle last, if there is one.
    fn push_clipped(
        &mut self,
        eye: &Eye,
        part: Option<EyeTriangle>,
        paint: Paint,
    ) -> Result<(), NoMemory>
        requires eye { IsEye eye.now }
        requires part { IfSome part (IsInFront eye.now.near_plane.norm eye.now.near_plane.w) }
        ensures tris { OnOk result (self.new.tris ≡ self.old.tris ++ map (on_screen_by eye.now) (option_to_list part)) }
        ensures paints { OnOk result (self.new.paints ≡ self.old.paints ++ map (λ _. paint) (option_to_list part)) }
    {
        match part {
            None => Ok(()),
            Some(corners) => self.push(on_screen(eye.screen, eye.near_plane, corners), paint),
        }
    }

    /// Puts the primitives of a triangle last.
    pub(crate) fn push_triangle(&mut self, eye: &Eye, t: &Triangle) -> Result<(), NoMemory>
        requires eye { IsEye eye.now }
        requires range { IsTriangleInRange t.now }
        ensures tris { OnOk result (self.new.tris ≡ self.old.tris ++ map (on_screen_by eye.now) (clipped_by eye.now t.now)) }
        ensures paints { OnOk result (self.new.paints ≡ self.old.paints ++ map (λ _. t.now.paint) (clipped_by eye.now t.now)) }
    {
        let a = eye.sees(Point3::of(t.a));
        let b = eye.sees(Point3::of(t.b));
        let c = eye.sees(Point3::of(t.c));
        let (first, second) = clip(eye.near_plane, a, b, c);
        self.push_clipped(eye, first, t.paint)?;
        self.push_clipped(eye, second, t.paint)?;
        Ok(())
    }

    /// All primitives, one paint for each.
    pub(crate) fn into_projected(self) -> Projected
        requires few { length self.tris ≤ MAX_PRIMITIVES }
        requires painted { length self.paints ≡ length self.tris }
        ensures tris { result.tris ≡ self.tris }
        ensures paints { result.paints ≡ self.paints }
    {
        let PrimitiveLists { tris, paints } = self;
        Projected { tris, paints }
    }
}
