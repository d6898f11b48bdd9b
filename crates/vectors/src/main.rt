// Vectors for the layers from the handshake to the summaries. Reads lines to the end of standard input, each one call of a public function
// in upper-case hexadecimal digits, and writes what the call answers as a line of its own. Numbers are big-endian, the first byte of a line
// is the operation:
//
//     01  handshake        input                                00 version (4)
//     02  read frame       minor (1), room (4), input           00 length (4) consumed (4) message, or 01 consumed (4): a keep-alive
//     03  write chunks     chunk size (4), room (4), message    00 output
//     04  read value       message                              00 and the value, see values_read.rt
//     05  read request     minor (1), message                   00 tag (1) and what it asks for, see requests_read.rt
//     06  pack Boolean     room (4), 00 or 01                   00 bytes
//     07  pack Integer     room (4), value (8)                  00 bytes
//     08  pack String      room (4), bytes                      00 bytes
//     09  pack summary     room (4), summary                    00 bytes; the summaries are in summaries_packed.rt
//     19  read all values  message                              00 and each value that the message holds, by the order of their markers
//     1A  pack at offset   what (1), at (4), room (4), value    00 end (4) or a refusal, and the buffer, of which each byte was EE, see
//                                                               values_packed.rt
//     1B  summary length   summary                              00 length (4)
//
// A refusal is FF, its number (1), its place (4). A line that is no vector gives FE. A line that begins with # names the group of those
// behind it, and is written as it stands.
#![tactic(auto)]

mod answers;
mod operands;
mod requests_read;
mod summaries_packed;
mod values_packed;
mod values_read;
mod wire;

use console::{input, output};
use std::io;

// What 16,384 bytes in chunks of one take: the largest room that a line may ask for.
const LARGEST_ROOM: usize = 49154;

// The numbers are hexadecimal, as everything in a line is. A match on them: each operation is another function, and a table of them would be no
// plainer.
fn perform(rt: HostRuntime, operation: u8, operands: &[u8], space: &mut [u8]) -> io::Result<()> {
    match operation {
        0x01 => wire::negotiate(rt, operands),
        0x02 => wire::read_frame(rt, operands, space),
        0x03 => wire::write_chunks(rt, operands, space),
        0x04 => values_read::read_value(rt, operands),
        0x05 => requests_read::read_request(rt, operands),
        0x06..=0x09 => values_packed::pack(rt, operation, operands, space),
        0x19 => values_read::read_values(rt, operands),
        0x1A => values_packed::pack_at(rt, operands),
        0x1B => summaries_packed::show_length(rt, operands),
        _ => answers::no_vector(rt),
    }
}

fn run_vector(rt: HostRuntime, vector: &[u8], space: &mut [u8]) -> io::Result<()> {
    match vector {
        [] => answers::no_vector(rt),
        [operation, operands @ ..] => perform(rt, *operation, operands, space),
    }
}

fn run_line(rt: HostRuntime, line: &[u8], bytes: &mut [u8], space: &mut [u8]) -> io::Result<()> {
    if line.starts_with(b"#") {
        return output::text(rt, line);
    }
    match hex_lines::decode(line, bytes) {
        Ok(n) => run_vector(rt, &bytes[..n], space),
        Err(_) => answers::no_vector(rt),
    }
}

// The input need not end, so the turns are counted by a number that no run uses up.
fn run(
    rt: HostRuntime,
    block: &mut [u8],
    held: &mut [u8],
    bytes: &mut [u8],
    space: &mut [u8],
) -> io::Result<()> {
    let mut input = input::fresh();
    for _ in 0..u64::MAX {
        let Some(size) = input::next(rt, &mut input, block, held)? else {
            break;
        };
        run_line(rt, &held[..size], bytes, space)?;
        output::line_end(rt)?;
    }
    Ok(())
}

fn main(rt: HostRuntime) -> io::Result<()> {
    let mut block = [0u8; input::BLOCK];
    let mut held = [0u8; lines::HELD];
    let mut bytes = [0u8; 20000];
    let mut space = [0u8; LARGEST_ROOM];
    run(rt, &mut block, &mut held, &mut bytes, &mut space)
}
