// The near plane.
ghost use Rattle.std.specs.Prelude.{◌≡◌, ◌++◌, ◌*◌, ◌^◌, ◌<◌, ◌≤◌, ℤ, pos, ◌+ℤ◌, ◌-ℤ◌, ◌*ℤ◌, ◌<ℤ◌, ◌≤ℤ◌, unsigned_abs, max, option_to_list, IsTrue, ◌↔◌, IfSome};
ghost use Rattle.abuf_num.specs.Division.{floor_div};
ghost use Rattle.abuf_view.specs.NearPlane.{cut, clipped, two_inside, one_inside, is_inside, IsNearPlane, IsEyePoint, IsInFront};

use crate::eye::EyePoint;
use abuf_num::{difference, floor_div, product};

/// A triangle in eye space, or the part of one in front of the near plane.
#[derive(Clone, Copy, Debug, PartialEq, Eq)]
pub struct EyeTriangle {
    pub a: EyePoint,
    pub b: EyePoint,
    pub c: EyePoint,
}

/// How far the other end of an edge is from this one, times how far this one is in front of the near plane.
fn cut_product(p: i64, q: i64, near: i64) -> i128
    requires p { unsigned_abs p < 2 ^ 55 }
    requires q { unsigned_abs q < 2 ^ 55 }
    requires near { unsigned_abs near < 2 ^ 56 }
    ensures value { result ≡ (q -ℤ p) *ℤ near }
    ensures bound { unsigned_abs result < 2 ^ 112 }
{
    product(q - p, near)
}

/// A coordinate of a cut point, between those of the two ends.
fn cut_coordinate(p: i64, q: i64, near: i64, span: i64) -> i64
    requires p { unsigned_abs p < 2 ^ 55 }
    requires q { unsigned_abs q < 2 ^ 55 }
    requires near { pos 0 ≤ℤ near }
    requires small { unsigned_abs near < 2 ^ 56 }
    requires span { pos 0 <ℤ span }
    requires order { near ≤ℤ span }
    ensures value { result ≡ p +ℤ floor_div ((q -ℤ p) *ℤ near) span }
    ensures within { unsigned_abs result ≤ max (unsigned_abs p) (unsigned_abs q) }
{
    p + floor_div(cut_product(p, q, near), span as i128) as i64
}

/// The camera's norm, and the w of its near plane.
#[derive(Clone, Copy)]
pub(crate) struct NearPlane {
    pub(crate) norm: i64,
    pub(crate) w: i64,
}

impl NearPlane {
    /// The point is at the near plane or behind it, as the camera looks.
    pub(crate) fn is_inside(self, s: EyePoint) -> bool
        ensures value { result ≡ is_inside self.w s }
        ensures inside { IsTrue result ↔ self.w ≤ℤ s.w }
    {
        s.w >= self.w
    }
}

/// Where the edge from p inside to q outside meets the near plane.
fn cut(near_plane: NearPlane, p: EyePoint, q: EyePoint) -> EyePoint
    requires near_plane { IsNearPlane near_plane.norm near_plane.w }
    requires p_bounded { IsEyePoint near_plane.norm p }
    requires q_bounded { IsEyePoint near_plane.norm q }
    requires inside { near_plane.w ≤ℤ p.w }
    requires outside { q.w <ℤ near_plane.w }
    ensures value { result ≡ cut near_plane.w p q }
    ensures bounded { IsEyePoint near_plane.norm result }
{
    let near = difference(p.w, near_plane.w);
    let span = difference(p.w, q.w);
    EyePoint {
        x: cut_coordinate(p.x, q.x, near, span),
        y: cut_coordinate(p.y, q.y, near, span),
        w: near_plane.w,
    }
}

/// The parts in front of the near plane, where a and b are inside.
fn two_inside(
    near_plane: NearPlane,
    a: EyePoint,
    b: EyePoint,
    c: EyePoint,
) -> (Option<EyeTriangle>, Option<EyeTriangle>)
    requires near_plane { IsNearPlane near_plane.norm near_plane.w }
    requires a_bounded { IsEyePoint near_plane.norm a }
    requires b_bounded { IsEyePoint near_plane.norm b }
    requires c_bounded { IsEyePoint near_plane.norm c }
    requires a_inside { near_plane.w ≤ℤ a.w }
    requires b_inside { near_plane.w ≤ℤ b.w }
    requires c_outside { c.w <ℤ near_plane.w }
    ensures parts { option_to_list result.0 ++ option_to_list result.1 ≡ two_inside near_plane.w a b c }
    ensures first { IfSome result.0 (IsInFront near_plane.norm near_plane.w) }
    ensures second { IfSome result.1 (IsInFront near_plane.norm near_plane.w) }
{
    let bc = cut(near_plane, b, c);
    let ac = cut(near_plane, a, c);
    (
        Some(EyeTriangle { a, b, c: bc }),
        Some(EyeTriangle { a, b: bc, c: ac }),
    )
}

/// The part in front of the near plane, where a alone is inside.
fn one_inside(
    near_plane: NearPlane,
    a: EyePoint,
    b: EyePoint,
    c: EyePoint,
) -> (Option<EyeTriangle>, Option<EyeTriangle>)
    requires near_plane { IsNearPlane near_plane.norm near_plane.w }
    requires a_bounded { IsEyePoint near_plane.norm a }
    requires b_bounded { IsEyePoint near_plane.norm b }
    requires c_bounded { IsEyePoint near_plane.norm c }
    requires a_inside { near_plane.w ≤ℤ a.w }
    requires b_outside { b.w <ℤ near_plane.w }
    requires c_outside { c.w <ℤ near_plane.w }
    ensures parts { option_to_list result.0 ++ option_to_list result.1 ≡ one_inside near_plane.w a b c }
    ensures first { IfSome result.0 (IsInFront near_plane.norm near_plane.w) }
    ensures second { IfSome result.1 (IsInFront near_plane.norm near_plane.w) }
{
    (
        Some(EyeTriangle {
            a,
            b: cut(near_plane, a, b),
            c: cut(near_plane, a, c),
        }),
        None,
    )
}

/// The parts of a triangle in front of the near plane.
pub(crate) fn clip(
    near_plane: NearPlane,
    a: EyePoint,
    b: EyePoint,
    c: EyePoint,
) -> (Option<EyeTriangle>, Option<EyeTriangle>)
    requires near_plane { IsNearPlane near_plane.norm near_plane.w }
    requires a_bounded { IsEyePoint near_plane.norm a }
    requires b_bounded { IsEyePoint near_plane.norm b }
    requires c_bounded { IsEyePoint near_plane.norm c }
    ensures parts { option_to_list result.0 ++ option_to_list result.1 ≡ clipped near_plane.w a b c }
    ensures first { IfSome result.0 (IsInFront near_plane.norm near_plane.w) }
    ensures second { IfSome result.1 (IsInFront near_plane.norm near_plane.w) }
{
    match (
        near_plane.is_inside(a),
        near_plane.is_inside(b),
        near_plane.is_inside(c),
    ) {
        (true, true, true) => (Some(EyeTriangle { a, b, c }), None),
        (true, true, false) => two_inside(near_plane, a, b, c),
        (false, true, true) => two_inside(near_plane, b, c, a),
        (true, false, true) => two_inside(near_plane, c, a, b),
        (true, false, false) => one_inside(near_plane, a, b, c),
        (false, true, false) => one_inside(near_plane, b, c, a),
        (false, false, true) => one_inside(near_plane, c, a, b),
        (false, false, false) => (None, None),
    }
}
