// Reading messages and the values in them: document 01, "Values".
ghost use Rattle.std.specs.Prelude.{◌≡◌, ◌≤◌, ◌*◌, length};
ghost use Rattle.bolt.specs.Limits.{most_bytes};
ghost use Rattle.refusal.specs.Answer.{told_at};
ghost use Rattle.values.specs.Decode.{value_at, value_in, decode};
ghost use Rattle.values.specs.Reading.{allowed, tell_message, tell_value};
ghost use Rattle.values.specs.Private.Steps.{step_of};

use crate::head::Head;
use crate::keys::Key;
use crate::value::value;
use crate::walk::peek;
use bolt::MOST_BYTES;
use markers::extent::MOST_OPEN;
use refusal::{Fault, Refusal};

// What a reader finds: a value, and the offset past it.
#[derive(Clone, Copy, Debug, PartialEq, Eq)]
pub struct Found {
    pub head: Head,
    pub end: usize,
}

// A message of at most so many bytes is read with a small scratch, which is quick to clear.
const SHORT: usize = 256;

// Reads through the value at `at`, with a scratch for so many keys. A key and its value take two bytes at least.
fn read_with<const KEYS: usize>(message: &[u8], at: usize, depth: usize) -> Result<usize, Fault>
    requires { (length message.now ≤ 2 * KEYS) × (2 * KEYS ≤ most_bytes) }
    ensures { result ≡ step_of (value_at message.now depth at) }
{
    let mut scratch = [Key { start: 0, size: 0 }; KEYS];
    value(message, at, depth, &mut scratch)
}

// Reads through the value at `at`, with room for `depth` open containers.
fn read_through(message: &[u8], at: usize, depth: usize) -> Result<usize, Fault>
    requires { length message.now ≤ most_bytes }
    ensures { result ≡ step_of (value_at message.now depth at) }
{
    // Half as many keys as bytes: a const argument is not computed.
    if message.len() <= SHORT {
        return read_with::<128>(message, at, depth);
    }
    read_with::<8192>(message, at, depth)
}

// The value at `at`, with room for `depth` open containers. A message that is too long is refused before anything else. A value that was
// read through has a head, which is then looked up.
fn read_at(message: &[u8], at: usize, depth: usize) -> Result<Found, Fault>
    requires { depth ≤ 16 }
    ensures { told_at result ≡ tell_value (value_in message.now depth at) }
{
    if MOST_BYTES < message.len() {
        return Err(Refusal::TooLong.into());
    }
    let end = read_through(message, at, depth)?;
    let head = peek(message, at).unwrap();
    Ok(Found { head, end })
}

// Reads the value at `at` of a message, with room for `depth` open containers, of which there are never more than 16. Refuses with 6 at place 0
// where the message is too long, and else with 7 to 12, at the place of the leftmost failure.
pub fn read_value(message: &[u8], at: usize, depth: usize) -> Result<Found, Fault>
    ensures { told_at result ≡ tell_value (value_in message.now (allowed depth) at) }
{
    read_at(message, at, depth.min(MOST_OPEN))
}

// Reads a whole message as one value. Refuses as `read_value` does, and with 13 where bytes are left over.
pub fn read_message(message: &[u8]) -> Result<Found, Fault>
    ensures { told_at result ≡ tell_message message.now (decode message.now) }
{
    let found = read_at(message, 0, MOST_OPEN)?;
    if found.end == message.len() {
        return Ok(found);
    }
    Err(Refusal::TrailingBytes.at(found.end))
}
