// Laws over the definitions.
ghost use Rattle.std.specs.Prelude.{All, ◌≤ℤ◌, ◌<ℤ◌};
ghost use Rattle.abuf_view.specs.NearPlane.{clipped, cut};
ghost use Rattle.abuf_view.specs.CutLaw.{IsBehind, IsCutOf};

use crate::eye::EyePoint;

/// Every corner of a triangle's parts is at the near plane, whose w is `plane`, or beyond it. A cut point has the greatest whole
/// numbers not above those of the exact point at which the edge meets the plane, and they lie between those of the edge's ends.
pub fn cut_law(plane: i64, a: EyePoint, b: EyePoint, c: EyePoint)
    ensures corners { All (IsBehind plane) (clipped plane a b c) }
    ensures cuts { plane ≤ℤ a.w → b.w <ℤ plane → IsCutOf plane a b (cut plane a b) }
{}
