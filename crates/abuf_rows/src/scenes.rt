// The scenes and libraries that have names in the tables.

/// The corners of a triangle that is left of and above the diagonal of a square of 8 by 8.
const CORNERS: &[u8] = b"v -4 4 0\nv 4 4 0\nv -4 -4 0\n";

/// The triangle of these corners.
pub(crate) const UPPER: &[u8] = b"v -4 4 0\nv 4 4 0\nv -4 -4 0\nf 1 2 3\n";

/// The other half of the square.
const LOWER: &[u8] = b"v 4 4 0\nv 4 -4 0\nv -4 -4 0\nf 1 2 3\n";

/// The square of both halves.
const SQUARE: &[u8] = b"v -4 4 0\nv 4 4 0\nv 4 -4 0\nv -4 -4 0\nf 1 2 4\nf 2 3 4\n";

/// The left half of what an image of 1 by 1 shows.
const LEFT_HALF: &[u8] = b"v -8 8 0\nv 0 8 0\nv 0 -8 0\nv -8 -8 0\nf 1 2 3 4\n";

/// A triangle with one corner behind the camera.
const ONE_BEHIND: &[u8] = b"v -1 0 3\nv 1 0 3\nv 0 1 5\nf 1 2 3\n";

/// A triangle with two corners behind the camera.
const TWO_BEHIND: &[u8] = b"v 0 0 3\nv -1 1 5\nv 1 1 5\nf 1 2 3\n";

/// Two triangles with one edge in common, which ends behind the camera.
const SHARED_CUT: &[u8] = b"v -1 0 3\nv 0 0 3\nv 1 0 3\nv 0 1 5\nf 1 2 4\nf 2 3 4\n";

/// The corners of a triangle over all of an image of 1 by 1.
const COVER: &[u8] = b"mtllib a.mtl\nv -8 8 0\nv 24 8 0\nv -8 -24 0\n";

/// The triangle of `COVER`, in a material of the first library.
const RED: &[u8] = b"mtllib a.mtl\nv -8 8 0\nv 24 8 0\nv -8 -24 0\nusemtl red\nf 1 2 3\n";

/// The triangle of `COVER`, in a material of either of two libraries.
const NAMED: &[u8] =
    b"mtllib a.mtl\nmtllib b.mtl\nv -8 8 0\nv 24 8 0\nv -8 -24 0\nusemtl m\nf 1 2 3\n";

/// Two materials, each half transparent.
const FILMS: &[u8] = b"newmtl red\nKd 1 0 0\nd 0.5\nnewmtl green\nKd 0 1 0\nd 0.5\n";

/// Two libraries and nothing else.
const TWO_LIBRARIES: &[u8] = b"mtllib a.mtl\nmtllib b.mtl\n";

/// A cube as exporters write it.
pub(crate) const CUBE: &[u8] = b"# Exported cube\n\
mtllib cube.mtl\n\
o Cube\n\
v 1.000000 1.000000 -1.000000\n\
v 1.000000 -1.000000 -1.000000\n\
v 1.000000 1.000000 1.000000\n\
v 1.000000 -1.000000 1.000000\n\
v -1.000000 1.000000 -1.000000\n\
v -1.000000 -1.000000 -1.000000\n\
v -1.000000 1.000000 1.000000\n\
v -1.000000 -1.000000 1.000000\n\
vn 0.0000 1.0000 0.0000\n\
vn 0.0000 0.0000 1.0000\n\
vt 0.625000 0.500000\n\
vt 0.875000 0.500000\n\
s 0\n\
usemtl Material\n\
f 1/1/1 5/2/1 7/1/1 3/2/1\n\
f 4/1/2 3/2/2 7/1/2 8/2/2\n\
f 8/1/1 7/2/1 5/1/1 6/2/1\n\
f 6/1/1 2/2/1 4/1/1 8/2/1\n\
f 2/1/1 1/2/1 3/1/1 4/2/1\n\
f 6/1/2 5/2/2 1/1/2 2/2/2\n";

/// The library that it names.
pub(crate) const CUBE_LIBRARY: &[u8] = b"newmtl Material\n\
Ns 250.000000\n\
Ka 1.000000 1.000000 1.000000\n\
Kd 0.800000 0.800000 0.800000\n\
Ks 0.500000 0.500000 0.500000\n\
Ke 0.000000 0.000000 0.000000\n\
Ni 1.450000\n\
d 1.000000\n\
illum 2\n";

/// Five triangles over all of the image, in an order that isn't that of their depths; two pairs have one depth.
const LAYERS: &[u8] = b"v -8 8 1\n\
v 24 8 1\n\
v -8 -24 1\n\
v -8 8 -1\n\
v 24 8 -1\n\
v -8 -24 -1\n\
v -8 8 0\n\
v 24 8 0\n\
v -8 -24 0\n\
f 1 2 3\n\
f 4 5 6\n\
f 7 8 9\n\
f 1 2 3\n\
f 4 6 5\n";

/// Two opaque triangles over all of an image of 1 by 1, one red and upright, one green and tilted, which cross inside the pixel.
const CROSSING: &[u8] = b"mtllib x.mtl\n\
v -9 9 -0.5\n\
v 27 9 -0.5\n\
v -9 -27 -0.5\n\
v -16 16 -4\n\
v 12 4 2\n\
v -16 -48 -4\n\
usemtl red\n\
f 1 2 3\n\
usemtl green\n\
f 4 5 6\n";

/// The materials of these faces.
const OPAQUE: &[u8] = b"newmtl red\nKd 1 0 0\nnewmtl green\nKd 0 1 0\n";

/// A triangle over all of an image of 1 by 1, and half of it once more.
const OVERLAPPING: &[u8] = b"v -4 4 0\nv 4 4 0\nv 4 -4 0\nv -4 -4 0\nf 1 2 4\nf 2 3 4\nf 1 2 3\n";

/// A triangle of the greatest size.
const GREATEST: &[u8] =
    b"v -32767 -32767 3.9375\nv 32767 -32767 3.9375\nv 0 32767 3.9375\nf 1 2 3\n";

/// A path whose shots see the scene from the front and from behind.
const TWO_SIDES: &[u8] = b"1 0 0 0 0 0 -4\n0 0 1 0 0 0 -4\n";

/// What a name in a table stands for.
pub(crate) fn named(name: &str) -> Option<&'static [u8]> {
    match name {
        "CORNERS" => Some(CORNERS),
        "UPPER" => Some(UPPER),
        "LOWER" => Some(LOWER),
        "SQUARE" => Some(SQUARE),
        "LEFT_HALF" => Some(LEFT_HALF),
        "ONE_BEHIND" => Some(ONE_BEHIND),
        "TWO_BEHIND" => Some(TWO_BEHIND),
        "SHARED_CUT" => Some(SHARED_CUT),
        "COVER" => Some(COVER),
        "RED" => Some(RED),
        "NAMED" => Some(NAMED),
        "FILMS" => Some(FILMS),
        "TWO_LIBRARIES" => Some(TWO_LIBRARIES),
        "CUBE" => Some(CUBE),
        "CUBE_LIBRARY" => Some(CUBE_LIBRARY),
        "LAYERS" => Some(LAYERS),
        "CROSSING" => Some(CROSSING),
        "OPAQUE" => Some(OPAQUE),
        "OVERLAPPING" => Some(OVERLAPPING),
        "GREATEST" => Some(GREATEST),
        "TWO_SIDES" => Some(TWO_SIDES),
        _ => None,
    }
}
