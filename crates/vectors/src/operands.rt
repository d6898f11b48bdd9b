// The operands of a vector.
pub use console::operands::{byte_at, number_at, signed_at};

// The number in the `width` bytes at `at`, for rooms, sizes and counts.
pub fn size_at(operands: &[u8], at: usize, width: usize) -> usize {
    number_at(operands, at, width) as usize
}

// The Boolean that 00 or 01 is, where the operands are that byte alone.
pub fn boolean_of(operands: &[u8]) -> Option<bool> {
    match operands {
        [0x00] => Some(false),
        [0x01] => Some(true),
        _ => None,
    }
}
