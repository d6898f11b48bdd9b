// The entries of a request's Dictionaries: where the value under each known name stands, and what kind of value it is. The message was read
// already: nothing of it is checked again. Document 01, "Requests".
#![tactic(auto)]

mod key; // key.rt: which known name a key is
pub mod names; // names.rt: the known names
pub mod view; // view.rt: values as far as a request looks at them

ghost use Rattle.std.specs.Prelude.{◌≡◌};
ghost use Rattle.values.specs.Walk.{peek_at};
ghost use Rattle.entries.specs.Walk.{entries_found, noted_from, nothing};

use values::head::Head;
use values::walk;

// Where the entries of a Dictionary lie: the first one's key is at `first`.
#[derive(Clone, Copy, Debug, PartialEq, Eq)]
pub struct Entries {
    pub first: usize,
    pub count: usize,
}

// The entries of the Dictionary at `at`, if one stands there.
pub fn entries_at(message: &[u8], at: usize) -> Option<Entries>
    ensures { result ≡ entries_found (peek_at message.now at) }
{
    match walk::peek(message, at)? {
        Head::Dictionary { first, count } => Some(Entries { first, count }),
        _ => None,
    }
}

// Where the value under each known name stands, by the name's number: 0 where it has no entry. At 12 is the last one of the others. Options
// would take twice the room, and no value stands at 0.
pub fn find(message: &[u8], entries: Entries) -> [usize; 13]
    ensures { result ≡ noted_from message.now entries.count entries.first nothing }
{
    let mut found = [0usize; 13];
    let mut at = entries.first;
    for i in 0..entries.count {
        let Some(key) = view::string_at(message, at) else {
            return found;
        };
        let place = key.start + key.size;
        let number = key::number_of(message, key.start, key.size);
        found[number.unwrap_or(12)] = place;
        // Nothing is looked for behind the last value.
        if i + 1 == entries.count {
            return found;
        }
        let Some(end) = walk::skip(message, place) else {
            return found;
        };
        at = end;
    }
    found
}
