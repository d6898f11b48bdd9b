// Summaries as operations 09, 1A and 1B name them: a form, and what belongs to it.
//
//     00  IGNORED
//     01  SUCCESS {}
//     02  SUCCESS has_more: 00 or 01 (1)
//     03  SUCCESS qid: its number (4)
//     04  FAILURE Parts.Stream.Full
//     05  FAILURE Parts.Stream.Unknown
//     06  FAILURE Parts.Engine.Failed
use crate::{answers, operands};
use console::output;
use states::answers::{Failure, Summary};
use std::io;
use summaries::summary::summary_length;

// The summary that the operands name, where nothing is missing or left over.
pub fn summary_of(operands: &[u8]) -> Option<Summary> {
    match operands {
        [0x00] => Some(Summary::Ignored),
        [0x01] => Some(Summary::Success),
        [0x02, more @ ..] => operands::boolean_of(more).map(Summary::HasMore),
        [0x03, a, b, c, d] => Some(Summary::Stream(u32::from_be_bytes([*a, *b, *c, *d]))),
        [0x04] => Some(Summary::Failure(Failure::StreamsFull)),
        [0x05] => Some(Summary::Failure(Failure::StreamUnknown)),
        [0x06] => Some(Summary::Failure(Failure::EngineFailed)),
        _ => None,
    }
}

pub fn show_length(rt: HostRuntime, operands: &[u8]) -> io::Result<()> {
    let Some(summary) = summary_of(operands) else {
        return answers::no_vector(rt);
    };
    output::byte(rt, 0x00)?;
    output::size(rt, summary_length(summary), 4)
}
