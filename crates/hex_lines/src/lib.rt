// Lines of upper-case hexadecimal digits, to bytes and back: two digits a byte, the high one first. The line's end is no part of it.
// Document 01, "Bench trial program", and refusals 21 and 23.
#![tactic(auto)]

ghost use Rattle.std.specs.Prelude.{◌≡◌, true, cond, ◌*◌, ◌/◌, ◌≤◌, ◌<◌, length};
ghost use Rattle.slices.specs.Parts.{front};
ghost use Rattle.refusal.specs.Answer.{told, counted, left};
ghost use Rattle.hex_lines.specs.Hex.{is_digit, value_of, digit_of, is_line, to_bytes, to_digits, decoding, encoding};

use refusal::Refusal;

const DIGITS: [u8; 16] = *b"0123456789ABCDEF";

// A line has at most so many characters.
const MOST_CHARACTERS: usize = 40000;

#[tactic(auto, unfolding(crate::specs::Hex::is_digit))]
fn is_digit(c: u8) -> bool
    ensures { result ≡ is_digit c }
{
    matches!(c, b'0'..=b'9' | b'A'..=b'F')
}

// The low four bits of '0' to '9' are 0 to 9, of 'A' to 'F' 1 to 6; only letters have the bit of weight 64.
fn value_of(digit: u8) -> u8
    requires { is_digit digit ≡ true }
    ensures { (result ≡ value_of digit) × (result < 16) }
{
    digit % 16 + 9 * (digit / 64)
}

#[tactic(auto, unfolding(crate::specs::Hex::digit_of))]
fn digit_of(value: u8) -> u8
    requires { value < 16 }
    ensures { result ≡ digit_of value }
{
    DIGITS[value as usize]
}

// 1 for what is no digit.
fn other_than_digit(c: u8) -> u8
    ensures { result ≡ cond (is_digit c) 0 1 }
{
    if is_digit(c) { 0 } else { 1 }
}

// Whether the characters are a line: not too many, and pairs of digits. None of them ends the loop, so that the compiler looks at sixteen
// at once.
fn is_line(line: &[u8]) -> bool
    ensures { result ≡ is_line line.now }
{
    if MOST_CHARACTERS < line.len() || line.len() % 2 != 0 {
        return false;
    }
    let mut others = 0u8;
    for c in line {
        others |= other_than_digit(*c);
    }
    others == 0
}

fn put_bytes(line: &[u8], out: &mut [u8])
    requires line_value { is_line line.now ≡ true }
    requires line_in_bounds { length line.now / 2 ≤ length out.old }
    ensures { out.new ≡ front (to_bytes line.now) out.old }
{
    // By index: after an adapter of `iter_mut` a proof knows nothing of what was written.
    for i in 0..line.len() / 2 {
        let high = value_of(line[2 * i]);
        let low = value_of(line[2 * i + 1]);
        out[i] = 16 * high + low;
    }
}

fn put_digits(bytes: &[u8], out: &mut [u8])
    requires { 2 * length bytes.now ≤ length out.old }
    ensures { out.new ≡ front (to_digits bytes.now) out.old }
{
    for (i, b) in bytes.iter().enumerate() {
        out[2 * i] = digit_of(*b / 16);
        out[2 * i + 1] = digit_of(*b % 16);
    }
}

// Writes the bytes that `line` stands for to the front of `out`; what stands past them stays. Refuses with 23 where the line has over
// 40,000 characters or is not pairs of upper-case hexadecimal digits, and with 21 where the bytes are more than `out` holds. All
// characters are looked at before the first byte is written, so that a refusal writes nothing.
#[tactic(auto, using(crate::proofs::Lines::length_bytes), unfolding(crate::specs::Hex::decoding))]
pub fn decode(line: &[u8], out: &mut [u8]) -> Result<usize, Refusal>
    ensures answer { told result ≡ counted (decoding (length out.old) line.now) }
    ensures filled { out.new ≡ left front (decoding (length out.old) line.now) out.old }
{
    if !is_line(line) {
        return Err(Refusal::InvalidLine);
    }
    let n = line.len() / 2;
    if out.len() < n {
        return Err(Refusal::NoRoom);
    }
    put_bytes(line, out);
    Ok(n)
}

// Writes the digits of `bytes` to the front of `out`; what stands past them stays. Refuses with 21 where the digits are more than `out`
// holds.
#[tactic(auto, using(crate::proofs::Lines::length_digits), unfolding(crate::specs::Hex::encoding))]
pub fn encode(bytes: &[u8], out: &mut [u8]) -> Result<usize, Refusal>
    ensures answer { told result ≡ counted (encoding (length out.old) bytes.now) }
    ensures filled { out.new ≡ left front (encoding (length out.old) bytes.now) out.old }
{
    if out.len() / 2 < bytes.len() {
        return Err(Refusal::NoRoom);
    }
    put_digits(bytes, out);
    Ok(2 * bytes.len())
}
