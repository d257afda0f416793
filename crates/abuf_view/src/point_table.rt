// The points of a scene on the screen, each computed once: a point is a corner of several faces.
ghost use Rattle.std.specs.Prelude.{ℕ, ◌≡◌, ◌+◌, ◌*◌, ◌/◌, ◌^◌, ◌<◌, ◌≤◌, [], All, drop, length, map, nat_le, slice_index_or, take, Some, None, IfOk, IfSome};
ghost use Rattle.abuf_num.specs.declared.limits.TheConstants.{MAX_THREADS};
ghost use Rattle.abuf_num.specs.declared.plain.Paint.{Paint};
ghost use Rattle.abuf_obj.specs.Sound.{IsInRange};
ghost use Rattle.abuf_scene.specs.Triangles.{triangle};
ghost use Rattle.abuf_share.specs.declared.desk.TheConstants.{MAX_NUMBERS};
ghost use Rattle.abuf_view.specs.Eye.{IsEye};
ghost use Rattle.abuf_view.specs.declared.short_points.ShortPoint.{ShortPoint};
ghost use Rattle.abuf_view.specs.ShortPoints.{short_point, AreOf, AreChunks, AreEntries, IsWhole};

use crate::eye::Eye;
use crate::short_points::{ShortPoint, joined, short_point};
use abuf_num::{List, NoMemory};
use abuf_raster::ScreenTri;
use abuf_share::{MAX_NUMBERS, map_numbered};
use std::alloc::Global;
use std::thread::Threads;

/// The least number of points for each of several workers. Starting a thread takes as long as some hundred points.
const MIN_POINTS: u64 = 4096;

/// The chunks' size is at most 2 to this power.
const MAX_BITS: u32 = 31;

/// What a camera sees of a scene's points: the eye, the points, and a table of those that it sees in short numbers. What isn't in
/// the table is computed of the points, so it may lack any of them. It is cut into chunks, which workers make side by side: chunk n
/// is for 2^bits points, from the point n * 2^bits on. The chunks stay apart, since joining them would take longer than the
/// look-ups.
#[derive(Drop)]
pub(crate) struct PointTable<'a> {
    pub(crate) eye: Eye,
    pub(crate) points: &'a [[i64; 3]],
    pub(crate) chunks: Vec<List<Option<ShortPoint>>>,
    pub(crate) bits: u32,
    pub(crate) ghost is_eye: { IsEye eye },
    pub(crate) ghost range: { All IsInRange points.now },
    pub(crate) ghost small: { bits < 64 },
    pub(crate) ghost entries: { AreEntries eye points.now bits chunks.items },
}

/// A point of a triangle takes as long as an entry of the table, so the table pays where a point is a corner of more than one
/// triangle: a face has three corners or more.
fn is_shared(points: usize, faces: usize) -> bool
    ensures { result ≡ nat_le (points / 2) faces }
{
    points / 2 <= faces
}

/// The power of two that is the chunks' size, so that no worker has two of them.
pub(crate) fn chunk_bits(points: usize, least: u64, threads: u32) -> u32
    requires least { 2 ≤ least }
    requires threads { (1 ≤ threads) × (threads ≤ MAX_THREADS) }
    ensures small { result < 64 }
    ensures workers { points ≤ 2 ^ 31 → points ≤ 2 ^ result * threads }
{
    let size = (points as u64).div_ceil(threads as u64).max(least);
    ((size - 1).ilog2() + 1).min(MAX_BITS)
}

/// Two to this power.
fn chunk_size(bits: u32) -> usize
    requires { bits < 64 }
    ensures value { result ≡ 2 ^ bits }
    ensures some { 1 ≤ result }
{
    1 << bits
}

/// How far the place is from the start of its chunk.
fn offset_in_chunk(place: usize, bits: u32) -> usize
    requires { bits < 64 }
    ensures { place / 2 ^ bits * 2 ^ bits + result ≡ place }
{
    place - ((place >> bits) << bits)
}

/// What the eye sees of some points.
fn short_points(
    alloc: Global,
    eye: &Eye,
    points: &[[i64; 3]],
) -> Result<List<Option<ShortPoint>>, NoMemory>
    requires eye { IsEye eye.now }
    requires range { All IsInRange points.now }
    ensures { IfOk result (λ list. list ≡ map (short_point eye.now) points.now) }
{
    let mut made = Vec::new(alloc);
    made.reserve_exact(points.len())?;
    for point in points {
        made.push(short_point(eye, *point))?;
    }
    Ok(List::from_vec(made))
}

/// The entries of some points, or none where there is no memory for them.
fn entries_of(alloc: Global, eye: &Eye, points: &[[i64; 3]]) -> List<Option<ShortPoint>>
    requires eye { IsEye eye.now }
    requires range { All IsInRange points.now }
    ensures { AreOf eye.now points.now result }
{
    match short_points(alloc, eye, points) {
        Ok(list) => list,
        Err(NoMemory) => List::new(alloc),
    }
}

/// How many chunks of this size there are: as many as it takes for all points, or as many as a desk has numbers.
fn chunk_count(points: usize, size: usize) -> u32
    requires { 1 ≤ size }
    ensures few { result ≤ MAX_NUMBERS }
    ensures some { (n : ℕ) → n < result → n * size < points }
{
    points.div_ceil(size).min(MAX_NUMBERS as usize) as u32
}

/// The points of a chunk.
fn chunk_of(points: &[[i64; 3]], size: usize, number: u32) -> &[[i64; 3]]
    requires { number * size ≤ length points.now }
    ensures { result.now ≡ take size (drop (number * size) points.now) }
{
    let rest = &points[number as usize * size..];
    &rest[..size.min(rest.len())]
}

/// The entries of all points, chunk by chunk.
fn all_chunks<R: Threads + Sync>(
    rt: &R,
    alloc: Global,
    eye: &Eye,
    points: &[[i64; 3]],
    size: usize,
    threads: u32,
) -> Result<Vec<List<Option<ShortPoint>>>, NoMemory>
    requires eye { IsEye eye.now }
    requires range { All IsInRange points.now }
    requires size { 1 ≤ size }
    requires threads { (1 ≤ threads) × (threads ≤ MAX_THREADS) }
    ensures { IfOk result (λ chunks. AreChunks eye.now points.now size chunks.items) }
{
    map_numbered(
        rt,
        alloc,
        chunk_count(points.len(), size),
        threads,
        &|number: u32| -> Result<List<Option<ShortPoint>>, NoMemory>
            requires { IsEye eye.now × All IsInRange points.now × (number * size < length points.now) }
            ensures { IfOk result (AreOf eye.entry.now (take size (drop (number * size) points.entry.now))) }
        { Ok(entries_of(alloc, eye, chunk_of(points, size, number))) },
    )
}

/// The entry in this place of the chunk of this number, if there is one.
fn entry_at(chunks: &[List<Option<ShortPoint>>], number: usize, place: usize) -> Option<ShortPoint>
    ensures { result ≡ slice_index_or (slice_index_or chunks.now number []) place None }
{
    if number < chunks.len() {
        let chunk = chunks[number].as_slice();
        if place < chunk.len() {
            return chunk[place];
        }
    }
    None
}

impl<'a> PointTable<'a> {
    /// The table of the points of so many faces, made by 1 to 64 workers.
    pub(crate) fn new<R: Threads + Sync>(
        rt: &R,
        alloc: Global,
        eye: Eye,
        points: &'a [[i64; 3]],
        faces: usize,
        threads: u32,
    ) -> Result<PointTable<'a>, NoMemory>
        requires eye { IsEye eye }
        requires range { All IsInRange points.now }
        requires threads { (1 ≤ threads) × (threads ≤ MAX_THREADS) }
        ensures eye { IfOk result (λ table. table.eye ≡ eye) }
        ensures points { IfOk result (λ table. table.points.now ≡ points.now) }
    {
        let bits = chunk_bits(points.len(), MIN_POINTS, threads);
        let mut chunks = Vec::new(alloc);
        if is_shared(points.len(), faces) {
            chunks = all_chunks(rt, alloc, &eye, points, chunk_size(bits), threads)?;
        }
        Ok(PointTable {
            eye,
            points,
            chunks,
            bits,
        })
    }

    /// Where the eye sees the point in this place, if the table has it.
    fn entry(&self, place: u32) -> Option<ShortPoint>
        ensures { IfSome result (λ s. short_point self.now.eye (slice_index_or self.now.points.now place []) ≡ Some s) }
    {
        let place = place as usize;
        entry_at(
            self.chunks.as_slice(),
            place >> self.bits,
            offset_in_chunk(place, self.bits),
        )
    }

    /// What the eye sees of the triangle of a face's corners 0, i and i + 1, if the table has all three.
    pub(crate) fn fan_triangle(&self, corners: &[u32], i: usize) -> Option<ScreenTri>
        requires { i + 1 < length corners.now }
        ensures { (paint : Paint) → IfSome result (IsWhole self.now.eye (triangle self.now.points.now corners.now paint i)) }
    {
        match (
            self.entry(corners[0]),
            self.entry(corners[i]),
            self.entry(corners[i + 1]),
        ) {
            (Some(a), Some(b), Some(c)) => joined(a, b, c),
            _ => None,
        }
    }
}
