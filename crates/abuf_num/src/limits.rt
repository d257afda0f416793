//! The limits of scenes, images and runs. Code, clauses and tests cite them from here.

/// The most bytes of a scene, and of each library.
pub const MAX_BYTES: u64 = 67108864;

/// The most bytes of the path of a sequence.
pub const MAX_PATH_BYTES: u64 = 1048576;

/// The most points of a scene.
pub const MAX_POINTS: usize = 1048576;

/// The greatest depth value and the greatest depth key, at the near plane.
pub const MAX_DEPTH: u32 = 16777215;

/// The most that a coordinate of a point or of a shift may be away from 0, in units of 1/65536.
pub const MAX_COORDINATE: u64 = 2147483647;

/// The most elements of a face.
pub const MAX_ELEMENTS: u32 = 1024;

/// The most triangles that the faces of a scene have together.
pub const MAX_TRIANGLES: u32 = 1048576;

/// The most primitives: the near plane makes at most two of a triangle.
pub const MAX_PRIMITIVES: u32 = 2097152;

/// The most libraries of a scene.
pub const MAX_LIBRARIES: usize = 16;

/// The most names of materials in a scene, and in all of its libraries together.
pub const MAX_MATERIALS: usize = 4096;

/// The most pixels of a row or a column of an image.
pub const MAX_SIDE: u32 = 4096;

/// The most pixels of an image.
pub const MAX_PIXELS: u32 = 4194304;

/// The most fragments that a pool has room for.
pub const MAX_NODES: u32 = 8388608;

/// The most threads.
pub const MAX_THREADS: u32 = 64;

/// The most images of a sequence.
pub const MAX_IMAGES: usize = 4096;
