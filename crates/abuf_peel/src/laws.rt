//! Laws over the definitions. Each function takes the values that its law speaks of, and does nothing: its contract is
//! the law.
ghost use Rattle.std.specs.Prelude.{◌≤◌, length};
ghost use Rattle.abuf_num.specs.declared.limits.TheConstants.{MAX_PRIMITIVES};
ghost use Rattle.abuf_peel.specs.Layers.{HaveLayer, StandsFor};

use crate::layer::Layer;
use abuf_num::Paint;
use abuf_raster::ScreenTri;

/// The law of the layers: after n steps over the same lists each sample has the paints of the lowest n primitives that cover
/// it, or of all where there are fewer, laid over the background.
pub fn layers_law(layer: &Layer, tris: &[ScreenTri], paints: &[Paint], background: [u16; 3], n: u32)
    requires few { length tris.now ≤ MAX_PRIMITIVES }
    requires steps { StandsFor background tris.now paints.now n layer.now }
    ensures { HaveLayer background tris.now paints.now n layer.now }
{}
