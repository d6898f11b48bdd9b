// Runs of ASCII: passed over eight bytes at once and in blocks of 64, each by one test of all their top bits.
ghost use Rattle.std.specs.Prelude.{◌≡◌, ◌+◌, ◌*◌, ◌/◌, ◌≤◌, ◌<◌, length, get_or, drop};
ghost use Rattle.slices.specs.Parts.{part};
ghost use Rattle.utf8.specs.Private.Ascii.{all_below, ascii_run, little_endian};

// The top bit of each of eight bytes.
const TOP_BITS: u64 = 0x8080_8080_8080_8080;

// The eight bytes from `at` on as one number, the first lowest: one load.
fn word_at(bytes: &[u8], at: usize) -> u64
    requires { at + 8 ≤ length bytes.now }
    ensures { result ≡ little_endian (part bytes.now at 8) }
{
    u64::from_le_bytes(bytes[at..at + 8].try_into().unwrap())
}

// Whether the eight bytes from `at` on are ASCII.
fn is_ascii_word(bytes: &[u8], at: usize) -> bool
    requires { at + 8 ≤ length bytes.now }
    ensures { result ≡ all_below 0x80 (part bytes.now at 8) }
{
    word_at(bytes, at) & TOP_BITS == 0
}

// Whether the 64 bytes from `at` on are ASCII: a loop that the compiler turns into wide loads.
fn is_ascii_block(bytes: &[u8], at: usize) -> bool
    requires { at + 64 ≤ length bytes.now }
    ensures { result ≡ all_below 0x80 (part bytes.now at 64) }
{
    let mut all = 0;
    for i in 0..8 {
        all |= word_at(bytes, at + 8 * i);
    }
    all & TOP_BITS == 0
}

// Past the whole blocks of ASCII from `start` on.
fn past_blocks(bytes: &[u8], start: usize) -> usize
    requires { start ≤ length bytes.now }
    ensures { result ≡ start + ascii_run (drop start bytes.now) / 64 * 64 }
{
    let mut at = start;
    // A while loop: the place moves by whole blocks, and no iterator says that more plainly.
    while 64 <= bytes.len() - at {
        if !is_ascii_block(bytes, at) {
            return at;
        }
        at += 64;
    }
    at
}

// Past the run of ASCII at the front of the `count` bytes from `start` on, one by one. Where the count is named, the loop is unrolled. No
// `position`, which takes a fifth more instructions over up to seven bytes.
fn past_bytes(bytes: &[u8], start: usize, count: usize) -> usize
    requires { start + count ≤ length bytes.now }
    ensures { result ≡ start + ascii_run (part bytes.now start count) }
{
    for i in 0..count {
        if 0x80 <= bytes[start + i] {
            return start + i;
        }
    }
    start + count
}

// Where the run of ASCII ends that begins at `start`, with a byte that the caller has seen. One byte between other characters is common in text,
// and is seen first. Where eight bytes are not all ASCII, seven of them tell where it ends. A rest of less than eight is tested together with
// bytes before it, which were passed already: one test for up to seven.
pub fn ascii_end(bytes: &[u8], start: usize) -> usize
    requires { (start < length bytes.now) × (get_or bytes.now start 0 < 0x80) }
    ensures { result ≡ start + ascii_run (drop start bytes.now) }
{
    if bytes.len() - start < 8 {
        return past_bytes(bytes, start + 1, bytes.len() - start - 1);
    }
    if 0x80 <= bytes[start + 1] {
        return start + 1;
    }
    let mut at = start;
    // A while loop: the place moves by eight bytes and then by whole blocks.
    while 8 <= bytes.len() - at {
        if !is_ascii_word(bytes, at) {
            return past_bytes(bytes, at, 7);
        }
        at = past_blocks(bytes, at + 8);
    }
    if is_ascii_word(bytes, bytes.len() - 8) {
        return bytes.len();
    }
    past_bytes(bytes, at, bytes.len() - at)
}
