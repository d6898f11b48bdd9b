// Keys: each is compared with the earlier keys of its own dictionary.
ghost use Rattle.std.specs.Prelude.{◌≡◌};
ghost use Rattle.values.specs.Decode.{repeats, key_at};
ghost use Rattle.values.specs.Private.Keys.{key_of_parse, keys_of, KeysInside};

use markers::extent::{Span, key_extent_at};
use refusal::{Fault, Refusal};

// Where a key's content lies, in half the room of a `Span`: no message is longer than 16,384 bytes.
#[derive(Clone, Copy, Debug, PartialEq, Eq)]
pub struct Key {
    pub start: u16,
    pub size: u16,
}

// Whether one of these keys has this content. The search goes from the latest key back and stops at the first that is equal.
// The form is document 01's: nested loops over earlier keys and their bytes, left by a label at the first equal key.
fn repeats(message: &[u8], keys: &[Key], content: &[u8]) -> bool
    requires { KeysInside message.now keys.now }
    ensures { result ≡ repeats content.now (keys_of message.now keys.now) }
{
    let mut found = false;
    'search: for i in (0..keys.len()).rev() {
        let start = usize::from(keys[i].start);
        let size = usize::from(keys[i].size);
        if size != content.len() {
            continue 'search;
        }
        // Keys of one size often begin alike, so their last bytes are compared first. Whether there is one is asked of the content, which stays from
        // key to key, and not of the size, which is the same here: the compiler then asks once.
        if 0 < content.len() && message[start + (size - 1)] != content[size - 1] {
            continue 'search;
        }
        for k in 0..size {
            if message[start + k] != content[k] {
                continue 'search;
            }
        }
        found = true;
        break 'search;
    }
    found
}

// Reads the key at `at` of a dictionary that has had these keys.
pub fn read_key(message: &[u8], at: usize, keys: &[Key]) -> Result<Span, Fault>
    requires { KeysInside message.now keys.now }
    ensures { result ≡ key_of_parse (key_at message.now (keys_of message.now keys.now) at) }
{
    let key = key_extent_at(message, at)?;
    if !utf8::is_utf8_part(message, key.start, key.size) {
        return Err(Refusal::InvalidUtf8.at(at));
    }
    if repeats(message, keys, &message[key.start..key.start + key.size]) {
        return Err(Refusal::DuplicateKey.at(at));
    }
    Ok(key)
}
