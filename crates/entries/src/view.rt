// Values as far as a request looks at them. The message was read already: nothing of it is checked again.
ghost use Rattle.std.specs.Prelude.{◌≡◌, ◌+◌, ◌≤◌, length};
ghost use Rattle.slices.specs.Parts.{part};
ghost use Rattle.values.specs.Walk.{peek_at};
ghost use Rattle.entries.specs.View.{mode_named};
ghost use Rattle.entries.specs.Walk.{string_found, wrong_from, view_at, entry_at, entry_in};
ghost use Rattle.entries.specs.Numbering.{text_of};

use crate::names::Name;
use markers::extent::{Extent, MOST_OPEN, Span, extent_at};
use markers::kind::Leaf;
use values::head::Head;
use values::walk;

// How a transaction is going to access the data.
#[derive(Clone, Copy, Debug, PartialEq, Eq)]
pub enum Mode {
    Read,
    Write,
}

// What a value is, unless it is Null: in an entry Null and nothing are the same.
#[derive(Clone, Copy, Debug, PartialEq, Eq)]
pub enum View {
    // A String, and the mode that it names, if it names one.
    String { span: Span, mode: Option<Mode> },
    Integer(i64),
    // A List, and where its first item that is no String stands, if it has one.
    List { wrong: Option<usize> },
    Dictionary,
    Other,
}

// A value and its marker's offset.
#[derive(Clone, Copy, Debug, PartialEq, Eq)]
pub struct Entry {
    pub place: usize,
    pub view: View,
}

// The content of the String at `at`, if one stands there.
pub fn string_at(message: &[u8], at: usize) -> Option<Span>
    ensures { result ≡ string_found (peek_at message.now at) }
{
    let Extent::Leaf { kind, start, size } = extent_at(message, at, MOST_OPEN).ok()? else {
        return None;
    };
    if kind == Leaf::String {
        return Some(Span { start, size });
    }
    None
}

// Where the first of `count` items from `first` on stands that is no String.
fn first_wrong(message: &[u8], first: usize, count: usize) -> Option<usize>
    ensures { result ≡ wrong_from message.now count first }
{
    let mut at = first;
    for _ in 0..count {
        let Some(span) = string_at(message, at) else {
            return Some(at);
        };
        at = span.start + span.size;
    }
    None
}

// The mode that a String's content names.
fn mode_named(message: &[u8], start: usize, size: usize) -> Option<Mode>
    requires { start + size ≤ length message.now }
    ensures { result ≡ mode_named (part message.now start size) }
{
    if size != 1 {
        return None;
    }
    match message[start] {
        b'r' => Some(Mode::Read),
        b'w' => Some(Mode::Write),
        _ => None,
    }
}

// The value at `place`, where one stands there and is not Null. No entry begins a message: 0 stands for none.
fn view_at(message: &[u8], place: usize) -> Option<View>
    ensures { result ≡ view_at message.now place }
{
    if place == 0 {
        return None;
    }
    match walk::peek(message, place)? {
        Head::Null => None,
        Head::String { start, size } => Some(View::String {
            span: Span { start, size },
            mode: mode_named(message, start, size),
        }),
        Head::Integer(number) => Some(View::Integer(number)),
        Head::List { first, count } => Some(View::List {
            wrong: first_wrong(message, first, count),
        }),
        Head::Dictionary { .. } => Some(View::Dictionary),
        _ => Some(View::Other),
    }
}

// The same with its marker's offset.
pub fn entry_at(message: &[u8], place: usize) -> Option<Entry>
    ensures { result ≡ entry_at message.now place }
{
    let view = view_at(message, place)?;
    Some(Entry { place, view })
}

// The value under a known name, by what was noted of a Dictionary.
pub fn entry_under(message: &[u8], found: &[usize; 13], name: Name) -> Option<Entry>
    ensures { result ≡ entry_in message.now found.now (text_of name) }
{
    entry_at(message, found[name as usize])
}
