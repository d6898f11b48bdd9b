// The lists of calls, and the record that stays in one place. Reads lines of upper-case hexadecimal digits to the end of standard input,
// each one operation, and writes what it answers as a line of its own. Numbers are big-endian, the first byte of a line is the operation:
//
//     10  fresh record                                        00
//     11  arrive         a request                            00 queued, 01 closed
//     12  take                                                01 closed, 02 idle, 03 tag (1) number (4) numbers, 04 number (4) summary
//     13  report         00, 01 with more, 02 failure         04 number (4) summary
//     14  close                                               01
//     15  show record                                         00 and the record, see show.rt
//     16  set record     a record as 15 shows it              00
//     17  set place      place (1), kind (1), n (8), qid (8)  00
//     18  conversation   a request, a report, the same again  what 11, 12, 13, 11, 12, 13 and 14 answer
//
// A refusal is FF, its number (1), its place (4). A line that is no operation gives FE. A request is its tag (1) and, for DISCARD and PULL,
// n (8) and qid (8). Operations 10 to 17 work on one record, which is fresh at first; 18 on a fresh one of its own. Operation 17 sets a place
// of the ring, below 32, to numbers that need name no request, whether one waits there or not. A line that begins with `#` names the lines
// behind it, and is written as it stands.
#![tactic(auto)]

mod answers;
mod by_parts;
mod conversation;
mod operands;
mod operations;
mod request_bytes;
mod set;
mod show;

use console::{input, output};
use record::record::Connection;
use std::io;

// What the name of a group of lines begins with.
const NAME_MARK: u8 = b'#';

// Performs the operation that the first byte names on the bytes after it.
fn run_bytes(rt: HostRuntime, bytes: &[u8], connection: &mut Connection) -> io::Result<()> {
    match bytes {
        [operation, operands @ ..] => operations::perform(rt, *operation, operands, connection),
        [] => answers::no_operation(rt),
    }
}

fn run_line(
    rt: HostRuntime,
    line: &[u8],
    bytes: &mut [u8],
    connection: &mut Connection,
) -> io::Result<()> {
    if line.first() == Some(&NAME_MARK) {
        return output::text(rt, line);
    }
    match hex_lines::decode(line, bytes) {
        Ok(n) => run_bytes(rt, &bytes[..n], connection),
        Err(_) => answers::no_operation(rt),
    }
}

// The input need not end, so the turns are counted by a number that no run uses up.
fn run(rt: HostRuntime, block: &mut [u8], held: &mut [u8], bytes: &mut [u8]) -> io::Result<()> {
    let mut connection = record::record::fresh();
    let mut input = input::fresh();
    for _ in 0..u64::MAX {
        let Some(size) = input::next(rt, &mut input, block, held)? else {
            return Ok(());
        };
        run_line(rt, &held[..size], bytes, &mut connection)?;
        output::line_end(rt)?;
    }
    Ok(())
}

fn main(rt: HostRuntime) -> io::Result<()> {
    let mut block = [0u8; input::BLOCK];
    let mut held = [0u8; lines::HELD];
    let mut bytes = [0u8; 20000];
    run(rt, &mut block, &mut held, &mut bytes)
}
