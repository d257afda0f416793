// Chunks of 64 triangles that follow each other in the order of a drawing.
ghost use Rattle.std.specs.Prelude.{◌≡◌, ℕ, ◌+◌, ◌*◌, ◌<◌, ◌≤◌, length, take, drop, slice_index_or, All};
ghost use Rattle.std.specs.List.{flat_map};
ghost use Rattle.abuf_num.specs.declared.limits.TheConstants.{MAX_PRIMITIVES};
ghost use Rattle.abuf_raster.specs.Samples.{offsets_of};
ghost use Rattle.abuf_raster.specs.Triangle.{Triangle};
ghost use Rattle.abuf_frame.specs.Draws.{Draws};
ghost use Rattle.abuf_draw.specs.Waiting.{KnowsFull, Passes};
ghost use Rattle.abuf_fan.specs.Chunks.{fragments_of};

use crate::work::Work;
use abuf_draw::Brush;
use abuf_frame::Pass;
use abuf_raster::{Point, ScreenTri};

/// The numbers of the triangles of a chunk.
pub(crate) fn chunk_of(order: &[u32], chunk: u32) -> &[u32]
    requires chunk { 64 * chunk ≤ length order.now }
    requires few { length order.now ≤ MAX_PRIMITIVES }
    ensures chunk { result.now ≡ take 64 (drop (64 * chunk) order.now) }
    ensures few { length result.now ≤ 64 }
{
    let rest = &order[64 * chunk as usize..];
    &rest[..rest.len().min(64)]
}

/// Copies of the triangles of these numbers. In the order of a drawing they lie anywhere in memory. Copied right after each other,
/// they are waited for together.
fn triangles_of(tris: &[ScreenTri], numbers: &[u32]) -> [ScreenTri; 64]
    requires numbers { All (λ n. n < length tris.now) numbers.now }
    requires few { length numbers.now ≤ 64 }
    ensures { (k : ℕ) (t : Triangle) → k < length numbers.now → slice_index_or result k t ≡ slice_index_or tris.now (slice_index_or numbers.now k 0) t }
{
    let corner = Point { x: 0, y: 0 };
    let mut triangles = [ScreenTri::of_corners(corner, corner, corner, 0, 0, 0); 64];
    for i in 0..numbers.len() {
        triangles[i] = tris[numbers[i] as usize];
    }
    triangles
}

/// Draws the triangle of this number, some of whose fragments may wait in the brush then.
fn draw_one(work: &Work, brush: &mut Brush, pass: &mut Pass, triangle: &ScreenTri, number: u32)
    requires brush { (brush.old.region ≡ work.now.region) × (brush.old.pattern ≡ work.now.pattern) }
    requires frame { pass.old.frame ≡ work.now.frame.now }
    requires number { number < length work.now.tris.now }
    requires triangle { triangle.now ≡ slice_index_or work.now.tris.now number triangle.now }
    requires credit { length brush.old.batch + work.now.region.w * work.now.region.h ≤ pass.old.view.credit }
    requires full { KnowsFull brush.old.full work.now.frame.now.nodes pass.old.view }
    ensures brush { (brush.new.region ≡ work.now.region) × (brush.new.pattern ≡ work.now.pattern) }
    ensures frame { pass.new.frame ≡ pass.old.frame }
    ensures full { KnowsFull brush.new.full work.now.frame.now.nodes pass.new.view }
    ensures passes { Passes brush.old.batch (fragments_of work.now.tris.now (offsets_of work.now.pattern) work.now.region number)
        brush.new.batch pass.old.view pass.new.view }
    ensures few { pass.old.view.credit + length brush.new.batch ≤ pass.new.view.credit + length brush.old.batch + work.now.region.w * work.now.region.h }
{
    brush.draw(work.frame, pass, triangle, number);
}

/// Draws the triangles of these numbers. None of their fragments waits afterwards, so a gate sees from the credit of a pass what
/// its worker has drawn.
pub(crate) fn draw_chunk(work: &Work, pass: &mut Pass, numbers: &[u32])
    requires frame { pass.old.frame ≡ work.now.frame.now }
    requires numbers { All (λ n. n < length work.now.tris.now) numbers.now }
    requires few { length numbers.now ≤ 64 }
    requires credit { length numbers.now * (work.now.region.w * work.now.region.h) ≤ pass.old.view.credit }
    ensures frame { pass.new.frame ≡ pass.old.frame }
    ensures draws { Draws (flat_map (fragments_of work.now.tris.now (offsets_of work.now.pattern) work.now.region) numbers.now) pass.old.view pass.new.view }
    ensures few { pass.old.view.credit ≤ pass.new.view.credit + length numbers.now * (work.now.region.w * work.now.region.h) }
{
    let copies = triangles_of(work.tris, numbers);
    let triangles = &copies[..];
    let mut brush = Brush::new(work.region, work.pattern);
    for i in 0..numbers.len() {
        draw_one(work, &mut brush, pass, &triangles[i], numbers[i]);
    }
    brush.flush(work.frame, pass);
}
