// Walking through a message that was read already, from value to value: no text is checked again, no key compared, and nothing cleared.
// Message, offset and depth are parameters of their own, as in `value`.
ghost use Rattle.std.specs.Prelude.{◌≡◌};
ghost use Rattle.values.specs.Walk.{peek_at, past, skip_within, skip_at};

use crate::head::Head;
use crate::leaf::leaf_head;
use markers::extent::{Extent, MOST_OPEN, extent_at};
use markers::kind::Container;

// The head of the value at `at` of a message that was read already: no text is checked again. There is none where no value begins.
pub fn peek(message: &[u8], at: usize) -> Option<Head>
    ensures { result ≡ peek_at message.now at }
{
    match extent_at(message, at, MOST_OPEN).ok()? {
        Extent::Leaf { kind, start, size } => Some(leaf_head(message, kind, start, size)),
        Extent::Container { kind, start, count } => match kind {
            Container::List => Some(Head::List {
                first: start,
                count,
            }),
            Container::Dictionary => Some(Head::Dictionary {
                first: start,
                count,
            }),
            Container::Structure => {
                if message.len() <= start {
                    return None;
                }
                Some(Head::Structure {
                    tag: message[start],
                    first: start + 1,
                    count,
                })
            }
        },
    }
}

// The offset past the `count` values from `first` on.
#[cycle(skip_value_skip_values)]
fn skip_values(message: &[u8], first: usize, count: usize, depth: usize) -> Option<usize>
    ensures { result ≡ past (skip_within message.now depth) count first }
{
    let mut at = first;
    for _ in 0..count {
        at = skip_value(message, at, depth)?;
    }
    Some(at)
}

// The offset past the value at `at`, with room for `depth` open containers.
#[cycle(skip_value_skip_values)]
fn skip_value(message: &[u8], at: usize, depth: usize) -> Option<usize>
    ensures { result ≡ skip_within message.now depth at }
{
    match extent_at(message, at, depth).ok()? {
        Extent::Leaf { start, size, .. } => Some(start + size),
        Extent::Container { kind, start, count } => match kind {
            Container::List => skip_values(message, start, count, depth - 1),
            Container::Dictionary => skip_values(message, start, 2 * count, depth - 1),
            Container::Structure => {
                if message.len() <= start {
                    return None;
                }
                skip_values(message, start + 1, count, depth - 1)
            }
        },
    }
}

// The offset past the value at `at` of a message that was read already: no text is checked again, and no key compared. There is none where
// no value begins.
pub fn skip(message: &[u8], at: usize) -> Option<usize>
    ensures { result ≡ skip_at message.now at }
{
    skip_value(message, at, MOST_OPEN)
}
