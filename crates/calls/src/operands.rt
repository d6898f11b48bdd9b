// Operands, which stand behind the operation in a line: places and counts are one byte, and a number eight.
ghost use Rattle.std.specs.Prelude.{◌≤◌};

use console::operands;

// A place or a count.
pub fn count_at(operands: &[u8], at: usize) -> usize
    ensures { result ≤ 255 }
{
    usize::from(operands::byte_at(operands, at))
}

pub fn number_at(operands: &[u8], at: usize) -> u64 {
    operands::number_at(operands, at, 8)
}
