// Values that hold no other.
ghost use Rattle.std.specs.Prelude.{◌≡◌, true, ◌+◌, ◌≤◌, length};
ghost use Rattle.slices.specs.Parts.{part};
ghost use Rattle.markers.specs.Private.Sizes.{has_size};
ghost use Rattle.values.specs.Decode.{is_text, leaf_value, leaf_at};
ghost use Rattle.values.specs.Reading.{head_of};
ghost use Rattle.values.specs.Private.Steps.{step_of};

use crate::head::Head;
use markers::kind::Leaf;
use numbers::{read_signed, read_unsigned};
use refusal::{Fault, Refusal};

// The head of the value of this kind whose content is the `size` bytes from `start` on.
pub fn leaf_head(message: &[u8], kind: Leaf, start: usize, size: usize) -> Head
    requires { (start + size ≤ length message.now) × (has_size kind size ≡ true) }
    ensures { result ≡ head_of (leaf_value message.now kind start size) (start + size) }
{
    match kind {
        Leaf::Null => Head::Null,
        Leaf::Boolean => Head::Boolean(message[start] == 0xC3),
        Leaf::Integer => Head::Integer(read_signed(message, start, size).unwrap()),
        Leaf::Float => Head::Float(read_unsigned(message, start, 8).unwrap()),
        Leaf::Bytes => Head::Bytes { start, size },
        Leaf::String => Head::String { start, size },
    }
}

fn is_text(message: &[u8], kind: Leaf, start: usize, size: usize) -> bool
    ensures { result ≡ is_text kind (part message.now start size) }
{
    kind != Leaf::String || utf8::is_utf8_part(message, start, size)
}

// Reads the value of this kind whose marker is at `at` and whose content is the `size` bytes from `start` on.
pub fn read_leaf(
    message: &[u8],
    at: usize,
    kind: Leaf,
    start: usize,
    size: usize,
) -> Result<usize, Fault>
    requires { start + size ≤ length message.now }
    ensures { result ≡ step_of (leaf_at message.now at kind start size) }
{
    if !is_text(message, kind, start, size) {
        return Err(Refusal::InvalidUtf8.at(at));
    }
    Ok(start + size)
}
