// Reading values inside each other: a value is read by the reader of its container, which reads each value that it holds in turn. The room for
// open containers and the bytes that are left fall with every call; items and entries are read in loops, so that the stack grows with the
// depth alone. Message, offset, depth and scratch are four parameters, since each call goes on with other offsets, depths and rests of the scratch.
ghost use Rattle.std.specs.Prelude.{◌≡◌, [], ◌+◌, ◌*◌, ◌≤◌, ◌<◌, length};
ghost use Rattle.values.specs.Decode.{items, entries, structure_at, value_at};
ghost use Rattle.values.specs.Private.Keys.{Room};
ghost use Rattle.values.specs.Private.Steps.{step_of};

use crate::keys::{Key, read_key};
use crate::leaf::read_leaf;
use markers::extent::{Extent, Span, extent_at};
use markers::kind::Container;
use refusal::{Fault, Refusal};

// Reads the value at `at`, with room for `depth` open containers. What it holds is not put together: the answer is the offset past it. The
// scratch is for keys: each dictionary puts its own at the front, and what it holds gets the rest.
#[cycle(dictionary_list_structure_value)]
pub fn value(message: &[u8], at: usize, depth: usize, scratch: &mut [Key]) -> Result<usize, Fault>
    requires { Room (length message.now) (length scratch.old) at }
    ensures { result ≡ step_of (value_at message.now depth at) }
{
    match extent_at(message, at, depth)? {
        Extent::Leaf { kind, start, size } => read_leaf(message, at, kind, start, size),
        Extent::Container { kind, start, count } => match kind {
            Container::List => list(message, start, count, depth - 1, scratch),
            Container::Dictionary => dictionary(message, start, count, depth - 1, scratch),
            Container::Structure => structure(message, at, start, count, depth - 1, scratch),
        },
    }
}

// Reads the `count` items of a List from `first` on.
#[cycle(dictionary_list_structure_value)]
fn list(
    message: &[u8],
    first: usize,
    count: usize,
    depth: usize,
    scratch: &mut [Key],
) -> Result<usize, Fault>
    requires { Room (length message.now) (length scratch.old) first }
    ensures { result ≡ step_of (items (value_at message.now depth) count first) }
{
    let mut at = first;
    for _ in 0..count {
        at = value(message, at, depth, scratch)?;
    }
    Ok(at)
}

// Reads the tag at `start` of the Structure whose marker is at `marker`, and the `count` fields after it.
#[cycle(dictionary_list_structure_value)]
fn structure(
    message: &[u8],
    marker: usize,
    start: usize,
    count: usize,
    depth: usize,
    scratch: &mut [Key],
) -> Result<usize, Fault>
    requires { Room (length message.now) (length scratch.old) start }
    ensures { result ≡ step_of (structure_at message.now (value_at message.now depth) marker start count) }
{
    if message.len() <= start {
        return Err(Refusal::ValueTruncated.at(marker));
    }
    list(message, start + 1, count, depth, scratch)
}

// Reads the `count` entries of a Dictionary from `first` on.
#[cycle(dictionary_list_structure_value)]
fn dictionary(
    message: &[u8],
    first: usize,
    count: usize,
    depth: usize,
    scratch: &mut [Key],
) -> Result<usize, Fault>
    requires { Room (length message.now) (length scratch.old) first × (length message.now < first + 2 * length scratch.old) × (first ≤ length message.now) }
    ensures { result ≡ step_of (entries message.now (value_at message.now depth) [] count first) }
{
    let mut at = first;
    for i in 0..count {
        let Span { start, size } = read_key(message, at, &scratch[..i])?;
        scratch[i] = Key {
            start: start as u16,
            size: size as u16,
        };
        at = value(message, start + size, depth, &mut scratch[i + 1..])?;
    }
    Ok(at)
}
