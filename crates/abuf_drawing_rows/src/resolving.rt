// Sums of small frames, against a fold over all triangles for each sample.
ghost use Rattle.std.specs.Prelude.{◌≡◌, ◌*◌, ◌≤◌, ◌<◌, true, length, IfOk};
ghost use Rattle.std.specs.List.{All};
ghost use Rattle.abuf_raster.specs.Samples.{offsets_of};
ghost use Rattle.abuf_raster.specs.Coverage.{covers};
ghost use Rattle.abuf_resolve.specs.Words.{IsFragmentAt, AreFragmentLists};

use abuf_frame::{Closed, Frame};
use abuf_num::{NoMemory, Paint, PixelSum};
use abuf_raster::{Fragment, Pattern, Region, ScreenTri, depth_at, mask_at, pack};
use abuf_resolve::{Pixel, Planes, Resolved, Shading, over, resolve, resolve_counted};
use std::alloc::Global;
use std::test::Fail;
use std::thread::Threads;

const PATTERNS: [Pattern; 5] = [
    Pattern::One,
    Pattern::Two,
    Pattern::Four,
    Pattern::Eight,
    Pattern::Sixteen,
];

/// Nine columns and three rows, away from the corner.
fn nine_by_three() -> Region {
    Region::new(2, 1, 9, 3)
}

const WHITE: [u16; 3] = [65535, 65535, 65535];

const fn paint(red: u16, green: u16, blue: u16, alpha: u16) -> Paint {
    Paint {
        colour: [red, green, blue],
        alpha,
    }
}

/// The triangle covers the sample.
fn covers(t: &ScreenTri, x: u32, y: u32, pattern: Pattern, k: u32) -> bool
    requires x { x < 4096 }
    requires y { y < 4096 }
    requires k { k < length (offsets_of pattern) }
    ensures { result ≡ covers t.now (offsets_of pattern) x y k }
{
    mask_at(t, x, y, pattern) >> k & 1 == 1
}

/// The colour of a sample, from all triangles that cover it.
fn colour_of(
    alloc: Global,
    tris: &[ScreenTri],
    paints: &[Paint],
    at: (u32, u32),
    pattern: Pattern,
    k: u32,
) -> Result<[u16; 3], NoMemory>
    requires x { at.0 < 4096 }
    requires y { at.1 < 4096 }
    requires k { k < length (offsets_of pattern) }
{
    let mut layers = Vec::new(alloc);
    for n in 0..tris.len() {
        if covers(&tris[n], at.0, at.1, pattern, k) {
            layers.push((depth_at(&tris[n], at.0, at.1, pattern, k), n))?;
        }
    }
    layers.sort_unstable();
    let mut colour = WHITE;
    for (_, n) in layers.as_slice() {
        if let Some(paint) = paints.get(*n) {
            colour = [
                over(colour[0], paint.colour[0], paint.alpha),
                over(colour[1], paint.colour[1], paint.alpha),
                over(colour[2], paint.colour[2], paint.alpha),
            ];
        }
    }
    Ok(colour)
}

/// The sums of a pixel, from all triangles.
fn sums_of(
    alloc: Global,
    tris: &[ScreenTri],
    paints: &[Paint],
    at: (u32, u32),
    pattern: Pattern,
) -> Result<PixelSum, NoMemory>
    requires x { at.0 < 4096 }
    requires y { at.1 < 4096 }
{
    let mut sum = PixelSum { channels: [0; 3] };
    for k in 0..pattern.size() {
        let colour = colour_of(alloc, tris, paints, at, pattern, k)?;
        for c in 0..3 {
            sum.channels[c] = sum.channels[c].wrapping_add(u32::from(colour[c]));
        }
    }
    Ok(sum)
}

/// The fragments of the triangles in the region, those of later triangles first.
fn fragments_of(
    alloc: Global,
    tris: &[ScreenTri],
    pattern: Pattern,
    region: Region,
) -> Result<Vec<(u32, u64)>, NoMemory>
    requires few { length tris.now ≤ 64 }
    ensures { IfOk result (λ items. All (λ item. item.0 < region.w * region.h) items.items) }
{
    let mut items = Vec::new(alloc);
    for n in (0..tris.len()).rev() {
        for place in 0..region.pixels() {
            let x = region.x0() + place % region.w();
            let y = region.y0() + place / region.w();
            let mask = mask_at(&tris[n], x, y, pattern);
            if mask != 0 {
                let prim = n as u32;
                items.push((place, pack(Fragment { prim, mask })))?;
            }
        }
    }
    Ok(items)
}

/// A closed frame of the region with these fragments.
fn frame_of(alloc: Global, items: &[(u32, u64)], region: Region) -> Result<Closed, Fail>
    requires items { All (λ item. item.0 < region.w * region.h) items.now }
    ensures { IfOk result (λ closed. (length closed.lists ≡ region.w * region.h) × (closed.fragments ≤ closed.nodes)) }
{
    if items.len() > 4096 {
        return Err("too many".into());
    }
    let (frame, mut pass) = Frame::start(alloc, region.pixels(), 4096)?;
    pass.insert_all(&frame, items);
    let closed = frame.close(pass);
    if closed.full().is_some() {
        return Err("full".into());
    }
    Ok(closed)
}

/// The word is one of a fragment of the triangles in the pixel.
fn is_fragment(tris: &[ScreenTri], word: u64, x: u32, y: u32, pattern: Pattern) -> bool
    requires x { x < 4096 }
    requires y { y < 4096 }
    ensures { result ≡ true → IsFragmentAt (offsets_of pattern) tris.now x y word }
{
    let prim = (word >> 16) as usize;
    if word >= 1 << 40 {
        return false;
    }
    if prim >= tris.len() {
        return false;
    }
    mask_at(&tris[prim], x, y, pattern) == (word % 65536) as u16
}

/// Each word is one of a fragment of the triangles in the pixel.
fn are_fragments(tris: &[ScreenTri], words: &[u64], x: u32, y: u32, pattern: Pattern) -> bool
    requires x { x < 4096 }
    requires y { y < 4096 }
    ensures { result ≡ true → All (IsFragmentAt (offsets_of pattern) tris.now x y) words.now }
{
    for word in words {
        if !is_fragment(tris, *word, x, y, pattern) {
            return false;
        }
    }
    true
}

/// Each word of each list is one of a fragment of the triangles in the pixel of that list.
fn holds_fragments(
    alloc: Global,
    tris: &[ScreenTri],
    closed: &Closed,
    region: Region,
    pattern: Pattern,
) -> Result<bool, NoMemory>
    requires pixels { length closed.now.lists ≡ region.w * region.h }
    ensures { IfOk result (λ b. b ≡ true → AreFragmentLists (offsets_of pattern) tris.now region closed.now.lists) }
{
    for place in 0..closed.pixels() {
        let x = region.x0() + place % region.w();
        let y = region.y0() + place / region.w();
        let list = closed.list(alloc, place)?;
        if !are_fragments(tris, list.as_slice(), x, y, pattern) {
            return Ok(false);
        }
    }
    Ok(true)
}

/// Triangles with their paints, in the pixels of a region.
#[derive(Clone, Copy)]
struct Case<'a> {
    tris: &'a [ScreenTri],
    paints: &'a [Paint],
    pattern: Pattern,
    region: Region,
}

/// What the case resolves to over white, by both calls alike.
fn resolved<R: Threads + Sync>(
    rt: &R,
    alloc: Global,
    case: &Case,
    threads: u32,
) -> Result<Resolved, Fail>
    requires threads { (1 ≤ threads) × (threads ≤ 64) }
{
    let Case {
        tris,
        paints,
        pattern,
        region,
    } = *case;
    if tris.len() > 64 || paints.len() != tris.len() {
        return Err("no case".into());
    }
    let items = fragments_of(alloc, tris, pattern, region)?;
    let closed = frame_of(alloc, &items, region)?;
    if !holds_fragments(alloc, tris, &closed, region, pattern)? {
        return Err("a word of no fragment".into());
    }
    let sums = resolve(
        rt, alloc, &closed, region, tris, paints, pattern, WHITE, threads,
    )?;
    let shading = Shading {
        planes: Planes::new(rt, alloc, tris, threads)?,
        paints,
        pattern,
        background: WHITE,
    };
    let all = resolve_counted(rt, alloc, &closed, region, &shading, threads)?;
    if sums.as_slice() != all.sums.as_slice() {
        return Err("two answers".into());
    }
    Ok(all)
}

/// Two triangles that cover one pixel: the sums of its samples.
fn sums_of_two<R: Threads + Sync>(
    rt: &R,
    alloc: Global,
    tris: &[ScreenTri],
    paints: &[Paint],
    pattern: Pattern,
) -> Result<[u32; 3], Fail> {
    let case = Case {
        tris,
        paints,
        pattern,
        region: Region::whole_image(1, 1),
    };
    let all = resolved(rt, alloc, &case, 2)?;
    match all.sums.as_slice().first() {
        Some(sum) if all.longest == 2 => Ok(sum.channels),
        _ => Err("no two fragments".into()),
    }
}

/// A triangle with a slope crosses a level one inside of the pixel: at sample 0 of two it is the nearer, at sample 1 the farther.
/// Its keys are 507903 and 409599, those of the level one 466033. Of one triangle drawn twice the later one lies on top.
#[test]
fn two_fragments_of_one_pixel(rt: HostRuntime) -> Result<(), Fail> {
    let xs = [-128, 896, -128];
    let ys = [-128, -128, 896];
    let level = ScreenTri::new(xs, ys, [466033; 3]).ok_or("level")?;
    let slope = ScreenTri::new(xs, ys, [262143, 1048575, 262143]).ok_or("slope")?;
    let red = paint(65535, 0, 0, 65535);
    let green = paint(0, 65535, 0, 65535);
    let half_green = paint(0, 65535, 0, 32768);
    let rows = [
        ([level, slope], green, Pattern::One, [65535, 0, 0]),
        ([level, slope], green, Pattern::Two, [65535, 65535, 0]),
        ([slope, level], green, Pattern::Two, [65535, 65535, 0]),
        ([level, level], half_green, Pattern::One, [32767, 32768, 0]),
        ([level, level], half_green, Pattern::Two, [65534, 65536, 0]),
    ];
    for (tris, second, pattern, wanted) in rows {
        let sums = sums_of_two(&rt, rt.alloc(), &tris, &[red, second], pattern)?;
        assert_eq!(rt; sums, wanted);
    }
    Ok(())
}

/// Large triangles that cross, the same ones again, one that hides half of the pixels, slivers, both windings.
#[test]
fn sums_are_those_of_the_triangles(rt: HostRuntime) -> Result<(), Fail> {
    let wide = [0, 6000, 0];
    let high = [0, 0, 3000];
    let up = ScreenTri::new(wide, high, [100000, 900000, 100000]).ok_or("up")?;
    let down = ScreenTri::new(wide, high, [900000, 100000, 900000]).ok_or("down")?;
    let small = ScreenTri::new([600, 1500, 800], [300, 500, 1000], [450000; 3]).ok_or("small")?;
    let turned = ScreenTri::new([0, 0, 4000], [0, 4000, 0], [10, 10, 10]).ok_or("turned")?;
    let sliver = ScreenTri::new([512, 2816, 2816], [256, 1024, 1000], [1, 16777215, 500000]);
    let sliver = sliver.ok_or("sliver")?;
    let steep = ScreenTri::new([700, 2700, 1700], [300, 600, 1000], [0, 1000000, 0]);
    let steep = steep.ok_or("steep")?;
    let tris = [up, down, down, up, small, turned, sliver, steep];
    let paints = [
        paint(65535, 0, 0, 65535),
        paint(0, 65535, 0, 30000),
        paint(0, 0, 65535, 40000),
        paint(1, 2, 3, 20000),
        paint(50000, 40000, 30000, 65535),
        paint(9, 65535, 65535, 32768),
        paint(123, 4567, 8910, 65535),
        paint(65535, 65535, 65535, 1),
    ];
    for pattern in PATTERNS {
        let case = Case {
            tris: &tris,
            paints: &paints,
            pattern,
            region: nine_by_three(),
        };
        let one = resolved(&rt, rt.alloc(), &case, 1)?;
        let three = resolved(&rt, rt.alloc(), &case, 3)?;
        let many = resolved(&rt, rt.alloc(), &case, 64)?;
        assert!(rt; one.sums.as_slice() == three.sums.as_slice() && one.longest == three.longest);
        assert!(rt; one.sums.as_slice() == many.sums.as_slice() && one.longest == many.longest);
        let mut place = 0;
        for sum in one.sums.as_slice() {
            let at = (2 + place % 9, 1 + place / 9 % 3);
            assert!(rt; *sum == sums_of(rt.alloc(), &tris, &paints, at, pattern)?);
            place = u32::wrapping_add(place, 1);
        }
    }
    Ok(())
}

/// Each sample has the background. There are more pixels than a block of a worker's has.
#[test]
fn pixels_without_fragments(rt: HostRuntime) -> Result<(), Fail> {
    let case = Case {
        tris: &[],
        paints: &[],
        pattern: Pattern::Sixteen,
        region: Region::whole_image(41, 9),
    };
    for threads in 1..9 {
        let all = resolved(&rt, rt.alloc(), &case, threads)?;
        assert_eq!(rt; all.sums.as_slice().len(), 369);
        assert_eq!(rt; all.longest, 0);
        for sum in all.sums.as_slice() {
            assert_eq!(rt; sum.channels, [1048560; 3]);
        }
    }
    Ok(())
}

/// Where memory runs out, whichever allocation is refused, this ends without sums; otherwise it has these.
#[test]
fn refused_memory_gives_no_other_sums(rt: HostRuntime) -> Result<(), Fail> {
    let t = ScreenTri::new([0, 6000, 0], [0, 0, 3000], [7, 8, 9]).ok_or("t")?;
    let case = Case {
        tris: &[t, t],
        paints: &[paint(65535, 0, 0, 65535), paint(0, 65535, 0, 32768)],
        pattern: Pattern::Two,
        region: Region::whole_image(3, 1),
    };
    let all = resolved(&rt, rt.alloc(), &case, 3)?;
    assert!(rt; all.longest == 2 && all.sums.as_slice().len() == 3);
    for sum in all.sums.as_slice() {
        assert_eq!(rt; sum.channels, [65534, 65536, 0]);
    }
    Ok(())
}

/// Three threads share the planes of so many triangles. The words of fragments of the first and the last triangle of each part are those
/// by planes that are made on demand.
#[test]
fn planes_of_many_triangles(rt: HostRuntime) -> Result<(), Fail> {
    let alloc = rt.alloc();
    let mut tris = Vec::new(alloc);
    for i in 0..25000 {
        let depths = [i, 2 * i, 60000 - i];
        tris.push(ScreenTri::new([0, 512, 0], [0, 0, 512], depths).ok_or("no triangle")?)?;
    }
    assert!(rt; tris.len() == 25000);
    let mut list = Vec::new(alloc);
    for prim in [0, 8332, 8333, 16665, 16666, 24999] {
        list.push(pack(Fragment { prim, mask: 1 }))?;
    }
    if !are_fragments(&tris, &list, 0, 0, Pattern::One) {
        return Err("a word of no fragment".into());
    }
    let at = Pixel { x: 0, y: 0 };
    let mut words = Vec::new(alloc);
    let on_demand = Planes::on_demand(&tris);
    on_demand.sample_words(&mut words, &list, at, Pattern::One, 0)?;
    assert!(rt; words.len() == 6);
    for threads in [1, 3] {
        let mut same = Vec::new(alloc);
        let planes = Planes::new(&rt, alloc, &tris, threads)?;
        planes.sample_words(&mut same, &list, at, Pattern::One, 0)?;
        assert!(rt; same.as_slice() == words.as_slice(), "by {threads} threads");
    }
    Ok(())
}
