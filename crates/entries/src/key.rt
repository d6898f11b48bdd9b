// Which of the known names a key is: it is compared with the names of its own size.
ghost use Rattle.std.specs.Prelude.{◌≡◌, ◌+◌, ◌≤◌, ◌<◌, length, unwrap_or};
ghost use Rattle.slices.specs.Parts.{part};
ghost use Rattle.slices.specs.Equality.{same};
ghost use Rattle.entries.specs.Numbering.{names, name_of, index_of};

// The names in one text, and tables of places in it: a `match` over byte strings and `position` over an array of them were tried, and their proofs
// did not close.
const NAMES: [u8; 95] =
    *b"user_agent scheme principal credentials routing bookmarks tx_timeout tx_metadata mode db n qid ";

// Where each name begins in NAMES: a space is between one and the next.
const STARTS: [usize; 12] = [0, 11, 18, 28, 40, 48, 58, 69, 81, 86, 89, 91];

// The first name of each size, 12 where no name has that size.
const FIRST: [usize; 12] = [12, 10, 9, 11, 8, 12, 1, 4, 12, 2, 0, 3];

// For each name the next one of its size, 12 where there is none.
const NEXT: [usize; 12] = [6, 12, 5, 7, 12, 12, 12, 12, 12, 12, 12, 12];

// Whether the `size` bytes of the message from `start` on are the name of this number, which has that size.
fn is_name(message: &[u8], start: usize, size: usize, number: usize) -> bool
    requires { (start + size ≤ length message.now) × (number < 12) × (size ≡ length (name_of number)) }
    ensures { result ≡ same (part message.now start size) (name_of number) }
{
    let at = STARTS[number];
    message[start..start + size] == NAMES[at..at + size]
}

// The number of the name that the `size` bytes from `start` on are, if they are one.
pub fn number_of(message: &[u8], start: usize, size: usize) -> Option<usize>
    requires { start + size ≤ length message.now }
    ensures { unwrap_or result 12 ≡ index_of (part message.now start size) names }
{
    if 11 < size {
        return None;
    }
    let mut k = FIRST[size];
    // A while loop: it follows the chain of the names of one size, and no iterator says that more plainly.
    while k < 12 {
        if is_name(message, start, size, k) {
            return Some(k);
        }
        k = NEXT[k];
    }
    None
}
