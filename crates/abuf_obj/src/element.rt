// The elements of an `f` line.
ghost use Rattle.std.specs.Prelude.{◌≡◌, ◌≤◌, ◌<◌, ℕ, Some, true, length, map, min, position, option_map, take, drop, IfOk, IfSome};
ghost use Rattle.std.specs.List.{list_all};
ghost use Rattle.abuf_obj.specs.Elements.{spelled_from, spelled, without_minus, is_slash, before_slash, after_slash, is_unused_index, is_normal, is_texture_and_normal, from_last, from_first, vertex_of_index, vertex_of, vertices_of};
ghost use Rattle.abuf_obj.specs.LeadingElement.{is_index_byte, is_element_byte, vertex_by, first_vertex, IsIndex};
ghost use Rattle.abuf_obj.specs.Vertices.{clamped};

use abuf_num::{List, NoMemory, begins_negative, leading_digits};
use abuf_text::Statement;
use std::alloc::Global;

fn without_minus(text: &[u8]) -> &[u8]
    ensures { result.now ≡ without_minus text.now }
{
    if begins_negative(text) {
        &text[1..]
    } else {
        text
    }
}

/// The number that up to ten digits spell, if all bytes are digits.
fn spelled_out(text: &[u8]) -> Option<u64>
    requires { length text.now ≤ 10 }
    ensures { result ≡ spelled_from 0 text.now }
{
    let mut n = 0;
    for b in text {
        if *b < 48 || 57 < *b {
            return None;
        }
        n = 10 * n + u64::from(*b - 48);
    }
    Some(n)
}

/// The number that one to ten digits spell.
fn spelled(text: &[u8]) -> Option<u64>
    ensures { result ≡ spelled text.now }
{
    if text.is_empty() || text.len() > 10 {
        None
    } else {
        spelled_out(text)
    }
}

fn first_slash(text: &[u8]) -> Option<usize>
    ensures { result ≡ position is_slash text.now }
{
    text.iter().position(|b| *b == b'/')
}

/// What stands before the first slash, and behind it if there is one.
fn split_slash(text: &[u8]) -> (&[u8], Option<&[u8]>)
    ensures front { result.0.now ≡ before_slash text.now }
    ensures behind { option_map (λ t. t.now) result.1 ≡ after_slash text.now }
{
    match first_slash(text) {
        Some(slash) => (&text[..slash], Some(&text[slash + 1..])),
        None => (text, None),
    }
}

/// Nothing, or an index of any value.
fn is_unused_index(text: &[u8]) -> bool
    ensures { result ≡ is_unused_index text.now }
{
    text.is_empty() || spelled(without_minus(text)).is_some()
}

fn is_normal(text: Option<&[u8]>) -> bool
    ensures { result ≡ is_normal (option_map (λ t. t.now) text.entry) }
{
    match text {
        Some(text) => is_unused_index(text),
        None => true,
    }
}

fn is_texture_and_normal(text: Option<&[u8]>) -> bool
    ensures { result ≡ is_texture_and_normal (option_map (λ t. t.now) text.entry) }
{
    match text {
        Some(text) => {
            let (texture, normal) = split_slash(text);
            is_unused_index(texture) && is_normal(normal)
        }
        None => true,
    }
}

fn from_last(above: u32, n: u64) -> Option<u32>
    ensures { result ≡ from_last above n }
{
    if 1 <= n && n <= u64::from(above) {
        Some(above - n as u32)
    } else {
        None
    }
}

/// Clamped, since a vertex past 32 bits is no point's.
fn from_first(n: u64) -> Option<u32>
    ensures { result ≡ option_map clamped (from_first n) }
{
    if n == 0 {
        None
    } else if n <= 4294967296 {
        Some((n - 1) as u32)
    } else {
        Some(4294967295)
    }
}

/// The vertex that a point's index stands for.
fn vertex_of_index(above: u32, text: &[u8]) -> Option<u32>
    ensures { result ≡ option_map clamped (vertex_of_index above text.now) }
{
    if begins_negative(text) {
        match spelled(&text[1..]) {
            Some(n) => from_last(above, n),
            None => None,
        }
    } else {
        match spelled(text) {
            Some(n) => from_first(n),
            None => None,
        }
    }
}

/// The vertex of an element.
fn vertex(above: u32, text: &[u8]) -> Option<u32>
    ensures { result ≡ option_map clamped (vertex_of above text.now) }
{
    let (index, behind) = split_slash(text);
    if is_texture_and_normal(behind) {
        vertex_of_index(above, index)
    } else {
        None
    }
}

/// An index at the start of a text: its sign, the number that its digits spell, and how many bytes it takes.
#[derive(Clone, Copy)]
struct Index {
    negative: bool,
    value: u64,
    length: usize,
}

/// The vertex of an element at the start of a text, and how many bytes the element takes.
#[derive(Clone, Copy)]
struct Element {
    vertex: u32,
    length: usize,
}

#[inline(always)]
fn leading_index(text: &[u8]) -> Option<Index>
    ensures within { IfSome result (λ i. i.length ≤ length text.now) }
    ensures index { IfSome result (λ i. IsIndex i (take i.length text.now)) }
{
    let unsigned = without_minus(text);
    let digits = leading_digits(0, 0, 10, unsigned);
    if digits.count == 0 {
        return None;
    }
    Some(Index {
        negative: begins_negative(text),
        value: digits.value,
        length: text.len() - unsigned.len() + digits.count,
    })
}

/// How many bytes an index at the start of a text takes that isn't used, or none.
#[inline(always)]
fn leading_unused(text: &[u8]) -> usize
    ensures within { result ≤ length text.now }
    ensures unused { is_unused_index (take result text.now) ≡ true }
    ensures bytes { list_all is_index_byte (take result text.now) ≡ true }
{
    match leading_index(text) {
        Some(index) => index.length,
        None => 0,
    }
}

/// How many bytes a texture's index and a normal's take behind the first slash.
#[inline(always)]
fn leading_texture_and_normal(text: &[u8]) -> usize
    ensures within { result ≤ length text.now }
    ensures unused { is_texture_and_normal (Some (take result text.now)) ≡ true }
    ensures bytes { list_all is_element_byte (take result text.now) ≡ true }
{
    let texture = leading_unused(text);
    if texture < text.len() && text[texture] == b'/' {
        texture + 1 + leading_unused(&text[texture + 1..])
    } else {
        texture
    }
}

/// How many bytes an element takes that begins with an index of so many.
#[inline(always)]
fn element_length(text: &[u8], index: usize) -> usize
    requires within { index ≤ length text.now }
    requires some { 0 < index }
    requires bytes { list_all is_index_byte (take index text.now) ≡ true }
    ensures within { result ≤ length text.now }
    ensures some { 0 < result }
    ensures vertex { (above : ℕ) → vertex_of above (take result text.now) ≡ vertex_of_index above (take index text.now) }
    ensures bytes { list_all is_element_byte (take result text.now) ≡ true }
{
    if index < text.len() && text[index] == b'/' {
        index + 1 + leading_texture_and_normal(&text[index + 1..])
    } else {
        index
    }
}

/// The vertex with this index.
#[inline(always)]
fn vertex_at(above: u32, negative: bool, value: u64) -> Option<u32>
    ensures { result ≡ option_map clamped (vertex_by above negative value) }
{
    if negative {
        from_last(above, value)
    } else {
        from_first(value)
    }
}

#[inline(always)]
fn leading_element(above: u32, text: &[u8]) -> Option<Element>
    ensures within { IfSome result (λ e. e.length ≤ length text.now) }
    ensures some { IfSome result (λ e. 0 < e.length) }
    ensures vertex { IfSome result (λ e. option_map clamped (vertex_of above (take e.length text.now)) ≡ Some e.vertex) }
    ensures bytes { IfSome result (λ e. list_all is_element_byte (take e.length text.now) ≡ true) }
{
    let Some(index) = leading_index(text) else {
        return None;
    };
    match vertex_at(above, index.negative, index.value) {
        Some(vertex) => Some(Element {
            vertex,
            length: element_length(text, index.length),
        }),
        None => None,
    }
}

/// The vertex of the first element. Where it stands in the usual form, its end is found as it is read; else it is cut first.
#[inline(always)]
pub(crate) fn next_vertex<'a>(elements: &mut Statement<'a>, above: u32) -> Option<u32>
    ensures value { result ≡ option_map clamped (first_vertex above elements.old) }
    ensures rest { IfSome result (λ _. elements.new ≡ drop 1 elements.old) }
{
    let text = elements.text();
    if let Some(element) = leading_element(above, text) {
        if let Some(behind) = Statement::behind(text, element.length) {
            *elements = behind;
            return Some(element.vertex);
        }
    }
    match elements.next() {
        Some(element) => vertex(above, element),
        None => None,
    }
}

/// The vertices of so many elements, if each has one.
pub(crate) fn vertices(
    alloc: Global,
    above: u32,
    count: u32,
    mut elements: Statement,
) -> Result<Option<List<u32>>, NoMemory>
    requires { length elements ≡ count }
    ensures value { IfOk result (λ vertices. vertices ≡ option_map (map clamped) (vertices_of above elements.entry)) }
    ensures count { IfOk result (λ vertices. IfSome vertices (λ list. length list ≡ count)) }
{
    let mut list = Vec::with_capacity(alloc, count as usize)?;
    for _i in 0..count {
        match next_vertex(&mut elements, above) {
            Some(vertex) => list.push(vertex)?,
            None => return Ok(None),
        }
    }
    Ok(Some(List::from_vec(list)))
}

/// How many tokens are left, where more than 1025 count as 1025.
pub(crate) fn count(tokens: Statement) -> u32
    ensures { result ≡ min (length tokens.entry) 1025 }
{
    let mut n = 0;
    for _token in tokens {
        if n < 1025 {
            n += 1;
        }
    }
    n
}
