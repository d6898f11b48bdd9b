// Standard input, block by block and line by line, through memory that the program lends to each call and leaves alone between them. A line
// ends with 0A, which the last may lack: it is a line if it has characters. Of a line that is longer than the memory in which lines are held,
// its beginning is a line.
ghost use Rattle.std.specs.Prelude.{◌≡◌, ◌≤◌, IfOk, IfSome, OnErr, length};

use std::io;
use std::io::Read;

// How many bytes a program lends for what is read at a time.
pub const BLOCK: usize = 65536;

// Reads what comes next, as far as there is room, and answers how many bytes it is: 0 where nothing more comes. Fails only where the system's
// read does, which may have written anything into the block.
pub fn read(rt: HostRuntime, block: &mut [u8]) -> io::Result<usize>
    ensures ok { IfOk result (λ n. n ≤ length block.new) }
    ensures err { OnErr result (length block.new ≡ length block.old) }
{
    rt.stdin().read(block)
}

// How far the input has come: how many characters are held of the line that has begun, in fixed memory that the program lends to each call, as it
// does the block.
#[derive(Clone, Copy, Debug, PartialEq, Eq)]
pub struct Input {
    pub size: usize,
    // What was read and not taken yet lies in the block from here
    from: usize,
    // up to here.
    filled: usize,
}

// The input of which nothing was read.
pub fn fresh() -> Input
    ensures { result ≡ record { size = 0; from = 0; filled = 0 } }
{
    Input {
        size: 0,
        from: 0,
        filled: 0,
    }
}

// Takes what was read already, up to the end of the line: how many characters of it are held, if its end was there.
fn take_read(input: &mut Input, block: &[u8], held: &mut [u8]) -> Option<usize>
    ensures line { IfSome result (λ size. size ≤ length held.new) }
    ensures begun { input.new.size ≤ length held.new }
{
    let filled = input.filled.min(block.len());
    let from = input.from.min(filled);
    let line = lines::take_line(held, input.size, &block[from..filled]);
    input.from = from + line.taken;
    input.filled = filled;
    if line.ended {
        input.size = 0;
        return Some(line.size);
    }
    input.size = line.size;
    None
}

// The next line, at the front of `held`: how many characters of it are held, or None where nothing more comes. The input need not end, so
// the turns are counted by a number that no run uses up. Fails only where a read does: then `held` has what came of the line until then,
// `block` may hold anything, and the next call goes on with that line.
pub fn next(
    rt: HostRuntime,
    input: &mut Input,
    block: &mut [u8],
    held: &mut [u8],
) -> io::Result<Option<usize>>
    ensures ok { IfOk result (λ line. IfSome line (λ size. size ≤ length held.new)) }
    ensures begun { input.new.size ≤ length held.new }
    ensures err { OnErr result ((length block.new ≡ length block.old) × (length held.new ≡ length held.old)) }
{
    for _ in 0..u64::MAX {
        if let Some(size) = take_read(input, block, held) {
            return Ok(Some(size));
        }
        let filled = read(rt, block)?;
        input.from = 0;
        input.filled = filled;
        if filled == 0 {
            let size = input.size;
            input.size = 0;
            return Ok((0 < size).then_some(size));
        }
    }
    Ok(None)
}
