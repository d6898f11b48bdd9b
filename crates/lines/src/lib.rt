// Lines of a stream that comes block by block: a line is held in fixed memory until its end has come. Document 01, "Bench trial program": a
// line ends with 0A, which the last may lack.
#![tactic(auto)]

ghost use Rattle.std.specs.Prelude.{◌≡◌, length, take};
ghost use Rattle.slices.specs.Parts.{front};
ghost use Rattle.lines.specs.Lines.{first_line, first_lines, has_end};
ghost use Rattle.lines.specs.Blocks.{held_of};

pub const LINE_END: u8 = 0x0A;

// How many characters of a line are held: one more than a line may have, which is enough to know that it is too long.
pub const HELD: usize = 40001;

// What the next characters of a stream come to: how many were taken, whether a line end was the last of them, and how many characters of
// the line are held. No Option with a value: each field says something of every block, whether a line ends in it or not.
#[derive(Clone, Copy)]
pub struct Taken {
    pub taken: usize,
    pub ended: bool,
    pub size: usize,
}

// How many characters stand before the first line end, or how many there are where there is none.
fn first_length(bytes: &[u8]) -> usize
    ensures { result ≡ length (first_line bytes.now) }
{
    bytes
        .iter()
        .position(|b| *b == LINE_END)
        .unwrap_or(bytes.len())
}

// Takes the characters of a block up to its first line end, and that. Those of the line are held behind the `begun` characters of it that
// are held already, as far as there is room for them: the line stands in front of what was lent. A buffer with a length beside it, since a
// line is held in fixed memory, which the caller keeps from block to block.
pub fn take_line(held: &mut [u8], begun: usize, block: &[u8]) -> Taken
    ensures taken { result.taken ≡ length (first_lines 1 block.now) }
    ensures ended { result.ended ≡ has_end block.now }
    ensures size { result.size ≡ length (held_of (length held.old) (take begun held.old) block.now) }
    ensures filled { held.new ≡ front (held_of (length held.old) (take begun held.old) block.now) held.old }
{
    let length = first_length(block);
    let at = begun.min(held.len());
    let kept = length.min(held.len() - at);
    slices::copy(block, 0, kept, held, at);
    let ended = length < block.len();
    Taken {
        taken: if ended { length + 1 } else { length },
        ended,
        size: at + kept,
    }
}
