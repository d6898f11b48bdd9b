// Numbers in byte slices, the highest byte first: unsigned, as sizes are stored, and in two's complement, as integers are
// (document 01, "Values"). A number is 1, 2, 4 or 8 bytes wide; one loop reads every width, and one writes it. Slice, offset and width
// stay three parameters: each call has its own offset and width, and a struct of them would be made for that call alone.
#![tactic(auto)]

ghost use Rattle.std.specs.Prelude.{◌≡◌, ◌+◌, ◌-◌, ◌^◌, ◌≤◌, ◌<◌, true, cond, ◌&&◌, leb};
ghost use Rattle.std.specs.Int.Signed.{mag};
ghost use Rattle.slices.specs.Parts.{reaches};
ghost use Rattle.numbers.specs.BigEndian.{bytes_of, holds};
ghost use Rattle.numbers.specs.TwosComplement.{twos, bits_of, fits_in};
ghost use Rattle.numbers.specs.Access.{is_width, unsigned_at, signed_at, storing, stored};

// Why a read found no number.
#[derive(Clone, Copy, Debug, PartialEq, Eq)]
pub enum ReadError {
    // The slice ends before the number does.
    OutOfBounds,
    // No number is that wide.
    InvalidWidth,
}

// Why a write left the slice as it was.
#[derive(Clone, Copy, Debug, PartialEq, Eq)]
pub enum WriteError {
    // The width cannot hold the number.
    OutOfRange,
    // The slice ends before the number would.
    OutOfBounds,
    // No number is that wide.
    InvalidWidth,
}

// Whether numbers are that wide.
fn is_width(width: usize) -> bool
    ensures { result ≡ is_width width }
{
    matches!(width, 1 | 2 | 4 | 8)
}

// Whether a slice of that length has `width` bytes from `at` on.
pub fn in_bounds(length: usize, at: usize, width: usize) -> bool
    ensures { result ≡ leb (at + width) length }
{
    at <= length && width <= length - at
}

// The largest unsigned number of a width.
fn largest(width: usize) -> u64
    requires { (1 ≤ width) × (width ≤ 8) }
    ensures { result ≡ 256 ^ width - 1 }
{
    u64::MAX >> (64 - 8 * width)
}

// The unsigned number in the `width` bytes from `at` on.
#[tactic(auto, unfolding(crate::specs::Access::unsigned_at))]
pub fn read_unsigned(bytes: &[u8], at: usize, width: usize) -> Result<u64, ReadError>
    ensures { result ≡ unsigned_at bytes.now at width }
{
    if !is_width(width) {
        return Err(ReadError::InvalidWidth);
    }
    if !in_bounds(bytes.len(), at, width) {
        return Err(ReadError::OutOfBounds);
    }
    let mut number = 0;
    for byte in &bytes[at..at + width] {
        number = number * 256 + *byte as u64;
    }
    Ok(number)
}

// Stores the `width` lowest bytes of `number` from `at` on, if the slice reaches that far.
fn store(bytes: &mut [u8], at: usize, width: usize, number: u64) -> Result<(), WriteError>
    requires { width ≤ 8 }
    ensures answer { result ≡ cond (reaches bytes.old at width) (Ok tt) (Err WriteError.OutOfBounds) }
    ensures filled { bytes.new ≡ stored result bytes.old at (bytes_of width number) }
{
    if !in_bounds(bytes.len(), at, width) {
        return Err(WriteError::OutOfBounds);
    }
    // Byte by byte, and no copy out of `to_be_bytes`: that is a call of memcpy, which an archive for C would need from outside.
    for i in 0..width {
        let left = width - 1 - i;
        bytes[at + i] = ((number >> (8 * left)) % 256) as u8;
    }
    Ok(())
}

// Writes `number` into the `width` bytes from `at` on. The width is checked first, then the number's range, then the bounds.
#[tactic(auto, unfolding(crate::specs::Access::storing))]
pub fn write_unsigned(
    bytes: &mut [u8],
    at: usize,
    width: usize,
    number: u64,
) -> Result<(), WriteError>
    ensures answer { result ≡ storing (holds width number) bytes.old at width }
    ensures filled { bytes.new ≡ stored result bytes.old at (bytes_of width number) }
{
    if !is_width(width) {
        return Err(WriteError::InvalidWidth);
    }
    if largest(width) < number {
        return Err(WriteError::OutOfRange);
    }
    store(bytes, at, width, number)
}

// The integer that the unsigned number of `width` bytes stands for in two's complement.
fn signed_of(number: u64, width: usize) -> i64
    requires { (1 ≤ width) × (width ≤ 8) × (number < 256 ^ width) }
    ensures { result ≡ twos width number }
{
    let most = largest(width);
    if number <= most / 2 {
        number as i64
    } else {
        -1 - ((most - number) as i64)
    }
}

// The integer in the `width` bytes from `at` on, in two's complement.
pub fn read_signed(bytes: &[u8], at: usize, width: usize) -> Result<i64, ReadError>
    ensures { result ≡ signed_at bytes.now at width }
{
    Ok(signed_of(read_unsigned(bytes, at, width)?, width))
}

// n for n and for -n - 1, which take the same width.
fn magnitude(number: i64) -> u64
    ensures { result ≡ mag number }
{
    number.max(-1 - number) as u64
}

// Whether `width` bytes can hold `number`. No width but 1, 2, 4 and 8 can.
pub fn fits_signed(number: i64, width: usize) -> bool
    ensures { result ≡ (is_width width && fits_in width number) }
{
    is_width(width) && magnitude(number) <= largest(width) / 2
}

// The unsigned number of `width` bytes that stands for `number` in two's complement.
fn bits_of(number: i64, width: usize) -> u64
    requires { (is_width width ≡ true) × (fits_in width number ≡ true) }
    ensures { result ≡ bits_of width number }
{
    number.cast_unsigned() & largest(width)
}

// Writes `number` in two's complement into the `width` bytes from `at` on, with the checks of `write_unsigned` in their order.
#[tactic(auto, unfolding(crate::specs::Access::storing))]
pub fn write_signed(
    bytes: &mut [u8],
    at: usize,
    width: usize,
    number: i64,
) -> Result<(), WriteError>
    ensures answer { result ≡ storing (fits_in width number) bytes.old at width }
    ensures filled { bytes.new ≡ stored result bytes.old at (bytes_of width (bits_of width number)) }
{
    if !is_width(width) {
        return Err(WriteError::InvalidWidth);
    }
    if !fits_signed(number, width) {
        return Err(WriteError::OutOfRange);
    }
    store(bytes, at, width, bits_of(number, width))
}
