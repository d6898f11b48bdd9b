// Extents: where a value's content lies, as far as its marker and its size tell. A message and an offset in it stay two parameters: one message is
// lent, and many offsets of it are looked at, so that a struct of both would be made anew at each.
ghost use Rattle.std.specs.Prelude.{◌≡◌, ◌≤◌, ◌<◌, length, Ok};
ghost use Rattle.markers.specs.Marker.{small};
ghost use Rattle.markers.specs.Extents.{on_size, size_at, leaf_span, leaf_extent, container_extent, extent_at, key_extent_at};

use crate::kind::{Container, Leaf};
use crate::marker::{Kind, Marker};
use refusal::{Fault, Refusal};

// At most so many containers may be open.
pub const MOST_OPEN: usize = 16;

// `size` bytes from `start` on.
#[derive(Clone, Copy, Debug, PartialEq, Eq)]
pub struct Span {
    pub start: usize,
    pub size: usize,
}

// What lies at an offset.
#[derive(Clone, Copy, Debug, PartialEq, Eq)]
pub enum Extent {
    // A value of `size` bytes from `start` on.
    Leaf {
        kind: Leaf,
        start: usize,
        size: usize,
    },
    // A container of `count` items or entries. They lie from `start` on, or for a Structure from the byte after its tag at `start`.
    Container {
        kind: Container,
        start: usize,
        count: usize,
    },
}

// The size that the marker at `at` gives, itself or in the bytes after it.
fn size_at(message: &[u8], at: usize, marker: Marker) -> Result<usize, Fault>
    requires { (at < length message.now) × (marker.skip ≤ 1) }
    ensures { result ≡ on_size at (size_at message.now at marker) (λ n. Ok n) }
{
    if marker.width == 0 {
        return Ok(marker.size);
    }
    match numbers::read_unsigned(message, at + marker.skip, marker.width) {
        Ok(size) => Ok(size as usize),
        Err(_) => Err(Refusal::ValueTruncated.at(at)),
    }
}

// Where the content lies of a value that holds no other.
fn leaf_span(message: &[u8], at: usize, marker: Marker) -> Result<Span, Fault>
    requires { (at < length message.now) × (marker.skip ≤ 1) }
    ensures { result ≡ leaf_span message.now at marker }
{
    let size = size_at(message, at, marker)?;
    let start = at + marker.skip + marker.width;
    if message.len() - start < size {
        return Err(Refusal::ValueTruncated.at(at));
    }
    Ok(Span { start, size })
}

fn leaf_extent(message: &[u8], at: usize, kind: Leaf, marker: Marker) -> Result<Extent, Fault>
    requires { (at < length message.now) × (marker.skip ≤ 1) }
    ensures { result ≡ leaf_extent message.now at kind marker }
{
    let Span { start, size } = leaf_span(message, at, marker)?;
    Ok(Extent::Leaf { kind, start, size })
}

fn container_extent(
    message: &[u8],
    at: usize,
    kind: Container,
    marker: Marker,
) -> Result<Extent, Fault>
    requires { (at < length message.now) × (marker.skip ≤ 1) }
    ensures { result ≡ container_extent message.now at kind marker }
{
    let count = size_at(message, at, marker)?;
    let start = at + marker.skip + marker.width;
    Ok(Extent::Container { kind, start, count })
}

// What lies at `at`, where there is a marker, with room for `depth` open containers. It stays out of line, so that `extent_at`, which decides
// for most values, is short enough to be inlined.
#[inline(never)]
fn extent_by_marker(message: &[u8], at: usize, depth: usize) -> Result<Extent, Fault>
    requires { at < length message.now }
    ensures { result ≡ extent_at message.now depth at }
{
    let marker = Marker::from(message[at]);
    match marker.kind {
        Kind::Reserved => Err(Refusal::ReservedMarker.at(at)),
        Kind::Leaf(kind) => leaf_extent(message, at, kind, marker),
        Kind::Container(kind) => {
            if depth == 0 {
                return Err(Refusal::TooDeep.at(at));
            }
            container_extent(message, at, kind, marker)
        }
    }
}

// Where the content of the key at `at` lies, where there is a marker. It stays out of line for the same reason.
#[inline(never)]
fn key_by_marker(message: &[u8], at: usize) -> Result<Span, Fault>
    requires { at < length message.now }
    ensures { result ≡ key_extent_at message.now at }
{
    let marker = Marker::from(message[at]);
    let not_string = Refusal::KeyNotString.at(at);
    match marker.kind {
        Kind::Reserved => Err(Refusal::ReservedMarker.at(at)),
        Kind::Leaf(Leaf::String) => leaf_span(message, at, marker),
        _ => Err(not_string),
    }
}

// Where the content lies of a String whose marker tells its size.
fn small_string(message: &[u8], at: usize, size: usize) -> Result<Span, Fault>
    requires { at < length message.now }
    ensures { result ≡ leaf_span message.now at (small (Kind.Leaf Leaf.String) size) }
{
    if message.len() - at <= size {
        return Err(Refusal::ValueTruncated.at(at));
    }
    Ok(Span {
        start: at + 1,
        size,
    })
}

// What lies at `at`, with room for `depth` open containers. Text is not looked at, nor a Structure's tag. Most values are small Strings
// and Integers, which are told by their markers alone: they are looked for first.
pub fn extent_at(message: &[u8], at: usize, depth: usize) -> Result<Extent, Fault>
    ensures { result ≡ extent_at message.now depth at }
{
    if message.len() <= at {
        return Err(Refusal::ValueTruncated.at(message.len()));
    }
    let marker = message[at];
    if marker >> 4 == 8 {
        let Span { start, size } = small_string(message, at, (marker & 15) as usize)?;
        return Ok(Extent::Leaf {
            kind: Leaf::String,
            start,
            size,
        });
    }
    if marker < 0x80 {
        return Ok(Extent::Leaf {
            kind: Leaf::Integer,
            start: at,
            size: 1,
        });
    }
    extent_by_marker(message, at, depth)
}

// Where the content of the key at `at` lies: nothing but a String will do.
pub fn key_extent_at(message: &[u8], at: usize) -> Result<Span, Fault>
    ensures { result ≡ key_extent_at message.now at }
{
    if message.len() <= at {
        return Err(Refusal::ValueTruncated.at(message.len()));
    }
    let marker = message[at];
    if marker >> 4 == 8 {
        return small_string(message, at, (marker & 15) as usize);
    }
    key_by_marker(message, at)
}
