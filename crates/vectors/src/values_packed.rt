// Operations 06 to 09 pack a Boolean, an Integer, a String or a summary into a room. Operation 1A packs at any offset of a buffer, and shows
// the buffer behind its answer; it names what it packs by those operations, and two headers besides:
//
//     0A  Dictionary: count (8)
//     0B  Structure: tag (1) count (8)
use crate::{answers, operands, summaries_packed};
use console::output;
use refusal::Refusal;
use std::io;
use summaries::summary::pack_summary;

// The largest buffer that operation 1A shows.
const LARGEST_BUFFER: usize = 256;

// Packs what the operands name, or answers None where something of it is missing or left over. A match on its number, as in `perform`.
fn pack_value(
    what: u8,
    operands: &[u8],
    out: &mut [u8],
    at: usize,
) -> Option<Result<usize, Refusal>> {
    match (what, operands.len()) {
        (0x06, _) => Some(packing::pack_boolean(operands::boolean_of(operands)?, out, at)),
        (0x07, 8) => Some(packing::pack_integer(operands::signed_at(operands, 0), out, at)),
        (0x08, _) => Some(packing::pack_string(operands, out, at)),
        (0x09, _) => Some(pack_summary(summaries_packed::summary_of(operands)?, out, at)),
        (0x0A, 8) => Some(packing::pack_dictionary(operands::size_at(operands, 0, 8), out, at)),
        (0x0B, 9) => Some(packing::pack_structure(
            operands[0],
            operands::size_at(operands, 1, 8),
            out,
            at,
        )),
        _ => None,
    }
}

pub fn pack(rt: HostRuntime, what: u8, operands: &[u8], space: &mut [u8]) -> io::Result<()> {
    if operands.len() < 4 {
        return answers::no_vector(rt);
    }
    let room = operands::size_at(operands, 0, 4);
    if space.len() < room {
        return answers::no_vector(rt);
    }
    match pack_value(what, &operands[4..], &mut space[..room], 0) {
        None => answers::no_vector(rt),
        Some(Ok(end)) => {
            output::byte(rt, 0x00)?;
            output::front(rt, space, end)
        }
        Some(Err(why)) => answers::refused(rt, why.into()),
    }
}

pub fn pack_at(rt: HostRuntime, operands: &[u8]) -> io::Result<()> {
    if operands.len() < 9 {
        return answers::no_vector(rt);
    }
    let at = operands::size_at(operands, 1, 4);
    let room = operands::size_at(operands, 5, 4);
    if LARGEST_BUFFER < room {
        return answers::no_vector(rt);
    }
    let mut whole = [0xEEu8; LARGEST_BUFFER];
    let buffer = &mut whole[..room];
    match pack_value(operands[0], &operands[9..], buffer, at) {
        None => return answers::no_vector(rt),
        Some(Ok(end)) => {
            output::byte(rt, 0x00)?;
            output::size(rt, end, 4)?;
        }
        Some(Err(why)) => answers::refused(rt, why.into())?,
    }
    output::bytes(rt, buffer)
}
