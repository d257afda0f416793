// Two triangles that share an edge.
ghost use Rattle.std.specs.Prelude.{◌≡◌, ◌≤◌};
ghost use Rattle.abuf_frame.specs.Views.{endowment, loose};
ghost use Rattle.abuf_raster.specs.Region.{whole_image};

use abuf_draw::draw;
use abuf_frame::{Frame, Pass};
use abuf_raster::{Fragment, Pattern, Region, ScreenTri, pack};
use std::test::Fail;
use std::thread::{Threads, join_mut};

fn square() -> Region
    ensures { result ≡ whole_image 4 4 }
{
    Region::whole_image(4, 4)
}

/// The upper and the lower half of a square of 4 by 4 pixels, which meet along its diagonal.
fn halves() -> Option<(ScreenTri, ScreenTri)> {
    let upper = ScreenTri::new([0, 1024, 0], [0, 0, 1024], [0, 0, 0])?;
    let lower = ScreenTri::new([1024, 1024, 0], [0, 1024, 1024], [0, 0, 0])?;
    Some((upper, lower))
}

/// Each pixel of the square belongs to one of its halves.
#[test]
fn shared_diagonal_is_drawn_once(rt: HostRuntime) -> Result<(), Fail> {
    let alloc = rt.alloc();
    let (upper, lower) = halves().ok_or("no triangle")?;
    let region = square();
    let (frame, mut pass) = Frame::start(alloc, 16, 16)?;
    draw(&frame, &mut pass, &upper, 0, region, Pattern::One);
    draw(&frame, &mut pass, &lower, 1, region, Pattern::One);
    let closed = frame.close(pass);
    assert!(rt; closed.full().is_none());
    for pixel in 0..16 {
        let list = closed.list(alloc, pixel)?;
        assert!(rt; list.as_slice().len() == 1);
    }
    Ok(())
}

/// Draws the two triangles on two threads, each by a pass that is lent to its thread.
fn draw_at_once<R: Threads>(
    rt: &R,
    frame: &Frame,
    first: &mut Pass,
    upper: &ScreenTri,
    second: &mut Pass,
    lower: &ScreenTri,
)
    requires frames { (first.old.frame ≡ frame.now) × (second.old.frame ≡ frame.now) }
    requires pixels { 16 ≤ frame.now.pixels }
    requires credits { (16 ≤ first.old.view.credit) × (16 ≤ second.old.view.credit) }
    ensures frames { (first.new.frame ≡ first.old.frame) × (second.new.frame ≡ second.old.frame) }
    ensures endowments { (endowment first.new.view ≡ endowment first.old.view) × (endowment second.new.view ≡ endowment second.old.view) }
    ensures settled { (loose first.new.view.entries ≡ loose first.old.view.entries) × (loose second.new.view.entries ≡ loose second.old.view.entries) }
{
    join_mut(
        rt,
        &mut ||
            requires { (first.now.frame ≡ frame.now) × (16 ≤ frame.now.pixels) × (16 ≤ first.now.view.credit) }
            ensures frame { first.exit.now.frame ≡ first.entry.now.frame }
            ensures endowment { endowment first.exit.now.view ≡ endowment first.entry.now.view }
            ensures settled { loose first.exit.now.view.entries ≡ loose first.entry.now.view.entries }
        { draw(frame, first, upper, 0, square(), Pattern::One) },
        &mut ||
            requires { (second.now.frame ≡ frame.now) × (16 ≤ frame.now.pixels) × (16 ≤ second.now.view.credit) }
            ensures frame { second.exit.now.frame ≡ second.entry.now.frame }
            ensures endowment { endowment second.exit.now.view ≡ endowment second.entry.now.view }
            ensures settled { loose second.exit.now.view.entries ≡ loose second.entry.now.view.entries }
        { draw(frame, second, lower, 1, square(), Pattern::One) },
    );
}

/// Each half is drawn on a thread of its own, into one frame: the 6 pixels above the diagonal have a fragment of the upper half, and
/// the 10 others one of the lower, of which the diagonal is a left edge.
#[test]
fn two_drawers(rt: HostRuntime) -> Result<(), Fail> {
    let alloc = rt.alloc();
    let (upper, lower) = halves().ok_or("no triangle")?;
    let (frame, mut pass) = Frame::start(alloc, 16, 16)?;
    let mut first = pass.split(&frame, 16);
    let mut second = pass.split(&frame, 16);
    draw_at_once(&rt, &frame, &mut first, &upper, &mut second, &lower);
    pass.join(&frame, first);
    pass.join(&frame, second);
    let closed = frame.close(pass);
    assert!(rt; closed.fragments() == 16 && closed.full().is_none());
    for pixel in 0..16 {
        let prim = if pixel / 4 + pixel % 4 < 3 { 0 } else { 1 };
        let word = pack(Fragment { prim, mask: 1 });
        let list = closed.list(alloc, pixel)?;
        assert!(rt; list.as_slice() == [word].as_slice(), "pixel {pixel}");
    }
    Ok(())
}
