// What a scene is.
use abuf_num::{List, Paint};

/// A triangle, with its corners in units of 1/65536.
#[derive(Clone, Copy, Debug, PartialEq, Eq)]
pub struct Triangle {
    pub a: [i64; 3],
    pub b: [i64; 3],
    pub c: [i64; 3],
    pub paint: Paint,
}

/// Triangles, in the order of their faces. Their number and their coordinates have no limits here: who projects them asks for some.
#[derive(Drop)]
pub struct Scene {
    pub triangles: List<Triangle>,
}
