// An image, with no command line.
ghost use Rattle.std.specs.Prelude.{◌≡◌, ◌-◌, ◌^◌, ◌<◌, IfErr, IfOk, length};
ghost use Rattle.abuf_view.specs.Camera.{IsCamera};
ghost use Rattle.abuf_uses.specs.Seen.{IsFullOrMemory, file, image_of};

use crate::fault::NoImage;
use crate::view::seen_by;
use abuf_fan::OpenGate;
use abuf_num::List;
use abuf_num::limits::MAX_NODES;
use abuf_pam::image_bytes;
use abuf_picture::{Primitives, Target, draw, resolve_drawn};
use abuf_raster::{Pattern, Region};
use abuf_view::{Camera, Projected};
use std::alloc::Global;
use std::thread::Threads;

/// The file of an image of primitives, with values of one byte. The region of the target is the image.
pub fn image_of<R: Threads + Sync>(
    rt: &R,
    alloc: Global,
    projected: &Projected,
    target: &Target,
) -> Result<List<u8>, NoImage>
    ensures bytes { IfOk result (λ bytes. bytes ≡ image_of projected.now.tris projected.now.paints target.now.pattern target.now.background target.now.region) }
    ensures full { IfErr result (IsFullOrMemory projected.now.tris target.now.pattern target.now.region target.now.nodes) }
{
    let Target {
        region,
        pattern,
        ..
    } = *target;
    let primitives = Primitives::of(projected);
    let closed = draw(rt, alloc, &primitives, target, &OpenGate)?;
    if let Some(full) = closed.full() {
        return Err(NoImage::Full(full));
    }
    let resolved = resolve_drawn(rt, alloc, &primitives, target, &closed)?;
    let sums = resolved.sums.as_slice();
    let bytes = image_bytes(alloc, region.w(), region.h(), 255, pattern.size(), sums)?;
    Ok(bytes)
}

/// The file of a scene's image over black, from the bytes of the scene and of its library.
pub fn render<R: Threads + Sync>(
    rt: &R,
    alloc: Global,
    scene: &[u8],
    library: &[u8],
    camera: &Camera,
    pattern: Pattern,
) -> Result<List<u8>, NoImage>
    requires sizes { (length scene.now < 2 ^ 32 - 1) × (length library.now < 2 ^ 32 - 1) }
    requires camera { IsCamera camera.now }
    ensures { IfOk result (λ bytes. bytes ≡ file camera.now pattern scene.now library.now) }
{
    let projected = seen_by(rt, alloc, scene, library, camera)?;
    let target = Target {
        region: Region::whole_image(camera.width(), camera.height()),
        pattern,
        background: [0; 3],
        nodes: MAX_NODES,
        threads: 2,
    };
    image_of(rt, alloc, &projected, &target)
}
