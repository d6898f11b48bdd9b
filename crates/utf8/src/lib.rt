// The UTF-8 check of a String's content: document 01, "Values", and RFC 3629, section 3. It goes by runs of ASCII and by whole sequences:
// the count of leading one bits in the lead byte gives the sequence's length, and its scalar value is put together by shifts, so that
// surrogates, overlong forms and numbers above 10FFFF are seen as numbers.
#![tactic(auto)]

mod ascii; // ascii.rt: runs of ASCII

ghost use Rattle.std.specs.Prelude.{◌≡◌, ◌+◌, ◌*◌, ◌%◌, ◌^◌, ◌≤◌, ◌<◌, length, get_or, drop};
ghost use Rattle.slices.specs.Parts.{part};
ghost use Rattle.utf8.specs.Utf8.{is_continuation, is_scalar, sized, sequence, utf8};

use ascii::ascii_end;

// 10xxxxxx.
fn is_continuation(b: u8) -> bool
    ensures { result ≡ is_continuation b }
{
    matches!(b, 0x80..=0xBF)
}

// The bits so far with the six of a continuation byte below them.
fn shift_in(bits: u32, continuation: u8) -> u32
    requires { bits < 2 ^ 18 }
    ensures { result ≡ bits * 0x40 + continuation % 0x40 }
{
    (bits << 6) | u32::from(continuation & 0x3F)
}

// A number up to 10FFFF that is no surrogate.
fn is_scalar(v: u32) -> bool
    ensures { result ≡ is_scalar v }
{
    matches!(v, 0..=0xD7FF | 0xE000..=0x10FFFF)
}

// `size`, if the sequence of that size whose lead byte lies at `at` and gave `bits` is well-formed. A scalar value below `least` is
// overlong. Every call names the size, so that the loop can be unrolled there.
fn complete(bytes: &[u8], at: usize, size: usize, least: u32, bits: u8) -> Option<usize>
    requires { (at < length bytes.now) × (1 ≤ size) × (size ≤ 4) × (bits < 0x40) }
    ensures { result ≡ sized size least bits (drop (at + 1) bytes.now) }
{
    // A test and a slice, and no `get`, which takes a tenth more instructions over text of three bytes a character.
    if bytes.len() < at + size {
        return None;
    }
    let mut scalar = u32::from(bits);
    for b in &bytes[at + 1..at + size] {
        if !is_continuation(*b) {
            return None;
        }
        scalar = shift_in(scalar, *b);
    }
    // No `then_some`, which takes a twentieth more.
    if scalar < least || !is_scalar(scalar) {
        return None;
    }
    Some(size)
}

// The size of the well-formed sequence that begins at `at` with a byte that is not ASCII.
fn sequence_at(bytes: &[u8], at: usize) -> Option<usize>
    requires { (at < length bytes.now) × (0x80 ≤ get_or bytes.now at 0) }
    ensures { result ≡ sequence (get_or bytes.now at 0) (drop (at + 1) bytes.now) }
{
    let lead = bytes[at];
    // Document 01: "the count of leading one bits in the first byte gives the length". By order: the compiler then compares `lead` itself.
    let ones = (!lead).leading_zeros();
    if ones < 3 {
        if ones < 2 {
            return None;
        }
        return complete(bytes, at, 2, 0x80, lead & 0x1F);
    }
    if ones < 4 {
        return complete(bytes, at, 3, 0x800, lead & 0x0F);
    }
    if ones < 5 {
        return complete(bytes, at, 4, 0x10000, lead & 0x07);
    }
    None
}

// Whether the bytes are UTF-8.
pub fn is_utf8(bytes: &[u8]) -> bool
    ensures { result ≡ utf8 bytes.now }
{
    let mut at = 0;
    // A while loop: the place moves by whole runs and sequences, and no iterator says that more plainly.
    while at < bytes.len() {
        if bytes[at] < 0x80 {
            at = ascii_end(bytes, at);
            if bytes.len() <= at {
                return true;
            }
        }
        let Some(size) = sequence_at(bytes, at) else {
            return false;
        };
        at += size;
    }
    true
}

// Whether the `size` bytes from `start` on, or as many of them as there are, are UTF-8.
pub fn is_utf8_part(bytes: &[u8], start: usize, size: usize) -> bool
    ensures { result ≡ utf8 (part bytes.now start size) }
{
    if bytes.len() <= start {
        return true;
    }
    let end = start + size.min(bytes.len() - start);
    is_utf8(&bytes[start..end])
}
