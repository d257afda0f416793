// What the texts of the options and values stand for.
ghost use Rattle.std.specs.Prelude.{◌≡◌, ◌≤◌, ◌<◌, ◌^◌, ◌⊎◌, pos, IfSome};
ghost use Rattle.abuf_view.specs.Camera.{IsSize, IsTurn, IsBounded, IsFrom, quaternion_of, point_of};
ghost use Rattle.abuf_num.specs.declared.limits.TheConstants.{MAX_NODES, MAX_THREADS};
ghost use Rattle.abuf_cli.specs.Values.{size_of, size_within, pattern_of, counted, threads_of, nodes_of, turn_of, three_scaled, shift_of, between, focal_of};
ghost use Rattle.abuf_cli.specs.Values.{near_of, background_of, maxval_of, bands_of, pixel_within, at_of, number_of, AreInRange};

use crate::splits::{four_texts, split_once, three_texts};
use abuf_num::limits::{MAX_NODES, MAX_PIXELS, MAX_SIDE, MAX_THREADS};
use abuf_num::{channel, scaled_number, whole_number};
use abuf_raster::Pattern;
use abuf_view::turn_from;

/// A width and a height, in pixels.
#[derive(Clone, Copy)]
pub(crate) struct ImageSize {
    pub(crate) width: u32,
    pub(crate) height: u32,
}

/// The position of a pixel, from the left and from the top, both from 0.
#[derive(Clone, Copy)]
pub(crate) struct PixelPosition {
    pub(crate) x: u32,
    pub(crate) y: u32,
}

/// Three numbers of one text.
#[derive(Clone, Copy)]
pub(crate) struct Triple {
    pub(crate) x: i64,
    pub(crate) y: i64,
    pub(crate) z: i64,
}

/// A width and a height within the limits.
fn size_within(width: u32, height: u32) -> Option<ImageSize>
    requires width { width < 10 ^ 4 }
    requires height { height < 10 ^ 4 }
    ensures value { result ≡ size_within width height }
    ensures within { IfSome result (λ s. IsSize s.width s.height) }
{
    if 1 <= width
        && width <= MAX_SIDE
        && 1 <= height
        && height <= MAX_SIDE
        && width * height <= MAX_PIXELS
    {
        Some(ImageSize { width, height })
    } else {
        None
    }
}

/// `WxH`.
pub(crate) fn size_of(text: &[u8]) -> Option<ImageSize>
    ensures value { result ≡ size_of text.now }
    ensures within { IfSome result (λ s. IsSize s.width s.height) }
{
    let (width, height) = split_once(text, b'x')?;
    match (whole_number(width, 4), whole_number(height, 4)) {
        (Some(width), Some(height)) => size_within(width, height),
        _ => None,
    }
}

/// The pattern of so many samples.
pub(crate) fn pattern_of(text: &str) -> Option<Pattern>
    ensures { result ≡ pattern_of text.now }
{
    match text {
        "1" => Some(Pattern::One),
        "2" => Some(Pattern::Two),
        "4" => Some(Pattern::Four),
        "8" => Some(Pattern::Eight),
        "16" => Some(Pattern::Sixteen),
        _ => None,
    }
}

/// A number from `least` to `most`.
fn counted(least: u32, most: u32, number: Option<u32>) -> Option<u32>
    ensures value { result ≡ counted least most number }
    ensures range { IfSome result (λ n. (least ≤ n) × (n ≤ most)) }
{
    match number {
        Some(n) if least <= n && n <= most => Some(n),
        _ => None,
    }
}

/// A number of threads.
pub(crate) fn threads_of(text: &[u8]) -> Option<u32>
    ensures value { result ≡ threads_of text.now }
    ensures range { IfSome result (λ n. (1 ≤ n) × (n ≤ MAX_THREADS)) }
{
    counted(1, MAX_THREADS, whole_number(text, 2))
}

/// A number of nodes.
pub(crate) fn nodes_of(text: &[u8]) -> Option<u32>
    ensures value { result ≡ nodes_of text.now }
    ensures range { IfSome result (λ n. (1 ≤ n) × (n ≤ MAX_NODES)) }
{
    counted(1, MAX_NODES, whole_number(text, 7))
}

/// `a,b,c,d`.
pub(crate) fn turn_of(text: &[u8]) -> Option<[i32; 4]>
    ensures value { result ≡ turn_of text.now }
    ensures turn { IfSome result (λ t. IsTurn (quaternion_of t)) }
{
    let (a, b, c, d) = four_texts(text)?;
    turn_from(a, b, c, d)
}

/// `x,y,z`, times k.
fn three_scaled(text: &[u8], k: u32) -> Option<Triple>
    requires least { 1 ≤ k }
    requires most { k ≤ 65536 }
    ensures value { result ≡ three_scaled k text.now }
    ensures range { IfSome result AreInRange }
{
    let (x, y, z) = three_texts(text)?;
    match (
        scaled_number(x, k),
        scaled_number(y, k),
        scaled_number(z, k),
    ) {
        (Some(x), Some(y), Some(z)) => Some(Triple { x, y, z }),
        _ => None,
    }
}

/// A shift, in units of 1/65536.
pub(crate) fn shift_of(text: &[u8]) -> Option<[i64; 3]>
    ensures value { result ≡ shift_of text.now }
    ensures range { IfSome result (λ t. IsBounded (point_of t)) }
{
    let t = three_scaled(text, 65536)?;
    Some([t.x, t.y, t.z])
}

/// A length from `least` to `most`.
fn between(least: i64, most: i64, length: Option<i64>) -> Option<i64>
    ensures value { result ≡ between least most length }
    ensures range { IfSome result (IsFrom least most) }
{
    match length {
        Some(length) if least <= length && length <= most => Some(length),
        _ => None,
    }
}

/// A focal length, in units of 1/65536.
pub(crate) fn focal_of(text: &[u8]) -> Option<i64>
    ensures value { result ≡ focal_of text.now }
    ensures range { IfSome result (IsFrom (pos 1) (pos 1048576)) }
{
    between(1, 1048576, scaled_number(text, 65536))
}

/// A near distance, in units of 1/65536.
pub(crate) fn near_of(text: &[u8]) -> Option<i64>
    ensures value { result ≡ near_of text.now }
    ensures range { IfSome result (IsFrom (pos 4096) (pos 2147483647)) }
{
    between(4096, 2147483647, scaled_number(text, 65536))
}

/// `r,g,b`, each in parts of 65535.
pub(crate) fn background_of(text: &[u8]) -> Option<[u16; 3]>
    ensures { result ≡ background_of text.now }
{
    let t = three_scaled(text, 65535)?;
    Some([channel(t.x), channel(t.y), channel(t.z)])
}

/// The greatest value in the image.
pub(crate) fn maxval_of(text: &str) -> Option<u32>
    ensures value { result ≡ maxval_of text.now }
    ensures either { IfSome result (λ n. (n ≡ 255) ⊎ (n ≡ 65535)) }
{
    match text {
        "255" => Some(255),
        "65535" => Some(65535),
        _ => None,
    }
}

/// A number of bands, of an image of this height.
pub(crate) fn bands_of(height: u32, text: &[u8]) -> Option<u32>
    ensures value { result ≡ bands_of height text.now }
    ensures range { IfSome result (λ n. (1 ≤ n) × (n ≤ height)) }
{
    counted(1, height, whole_number(text, 4))
}

/// The pixel at this place, within an image of this size.
fn pixel_within(size: ImageSize, x: u32, y: u32) -> Option<PixelPosition>
    ensures value { result ≡ pixel_within size x y }
    ensures within { IfSome result (λ p. (p.x < size.width) × (p.y < size.height)) }
{
    if x < size.width && y < size.height {
        Some(PixelPosition { x, y })
    } else {
        None
    }
}

/// `X,Y`, a pixel of an image of this size.
pub(crate) fn at_of(size: ImageSize, text: &[u8]) -> Option<PixelPosition>
    ensures value { result ≡ at_of size text.now }
    ensures within { IfSome result (λ p. (p.x < size.width) × (p.y < size.height)) }
{
    let (x, y) = split_once(text, b',')?;
    match (whole_number(x, 4), whole_number(y, 4)) {
        (Some(x), Some(y)) => pixel_within(size, x, y),
        _ => None,
    }
}

/// A number of triangles.
pub(crate) fn number_of(text: &[u8]) -> Option<u32>
    ensures value { result ≡ number_of text.now }
    ensures range { IfSome result (λ n. (1 ≤ n) × (n ≤ 200000)) }
{
    counted(1, 200000, whole_number(text, 6))
}
