// Operands, which stand behind the operation in a line. An operand that is not all there is 0: every operation looks at how long its line
// is as well, and a line that is too short is none.
ghost use Rattle.std.specs.Prelude.{◌≡◌, pos, slice_index};
ghost use Rattle.std.specs.Result.{result_unwrap_or};
ghost use Rattle.numbers.specs.Access.{unsigned_at, signed_at};

pub fn byte_at(operands: &[u8], at: usize) -> u8
    ensures { result ≡ slice_index operands.now at }
{
    operands.get(at).copied().unwrap_or(0)
}

// The number in the `width` bytes at `at`.
pub fn number_at(operands: &[u8], at: usize, width: usize) -> u64
    ensures { result ≡ result_unwrap_or (unsigned_at operands.now at width) 0 }
{
    numbers::read_unsigned(operands, at, width).unwrap_or(0)
}

// The integer in the eight bytes at `at`.
pub fn signed_at(operands: &[u8], at: usize) -> i64
    ensures { result ≡ result_unwrap_or (signed_at operands.now at 8) (pos 0) }
{
    numbers::read_signed(operands, at, 8).unwrap_or(0)
}
