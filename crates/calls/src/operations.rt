// The operations by their numbers, which are hexadecimal, as everything in a line is. Each writes its answer.
use crate::{answers, by_parts, conversation, request_bytes, set, show};
use console::operands;
use record::record::Connection;
use states::answers::Outcome;
use std::io;

// The outcome that the byte at `at` names, if it names one.
fn outcome_at(operands: &[u8], at: usize) -> Option<Outcome> {
    match operands::byte_at(operands, at) {
        0x00 => Some(Outcome::Success),
        0x01 => Some(Outcome::More),
        0x02 => Some(Outcome::Failure),
        _ => None,
    }
}

fn arrive(rt: HostRuntime, operands: &[u8], connection: &mut Connection) -> io::Result<()> {
    if operands.len() != request_bytes::size_at(operands, 0) {
        return answers::no_operation(rt);
    }
    by_parts::arrive(rt, connection, request_bytes::request_at(operands, 0))
}

fn report(rt: HostRuntime, operands: &[u8], connection: &mut Connection) -> io::Result<()> {
    match outcome_at(operands, 0) {
        Some(outcome) if operands.len() == 1 => by_parts::report(rt, connection, outcome),
        _ => answers::no_operation(rt),
    }
}

// A conversation on a record of its own. The operands are a request, an outcome, and the same again.
fn converse(rt: HostRuntime, operands: &[u8]) -> io::Result<()> {
    let first_end = request_bytes::size_at(operands, 0);
    let second = first_end + 1;
    let second_end = second + request_bytes::size_at(operands, second);
    if operands.len() != second_end + 1 {
        return answers::no_operation(rt);
    }
    let outcomes = (
        outcome_at(operands, first_end),
        outcome_at(operands, second_end),
    );
    let (Some(outcome), Some(ending)) = outcomes else {
        return answers::no_operation(rt);
    };
    let heard = conversation::hold(
        record::record::fresh(),
        request_bytes::request_at(operands, 0),
        outcome,
        request_bytes::request_at(operands, second),
        ending,
    );
    answers::heard(rt, heard)
}

// Operations 11, 13 and 16 to 18, which have operands. A match on their numbers: each is another function, and a table of them would be no plainer.
fn perform_with(
    rt: HostRuntime,
    operation: u8,
    operands: &[u8],
    connection: &mut Connection,
) -> io::Result<()> {
    match operation {
        0x11 => arrive(rt, operands, connection),
        0x13 => report(rt, operands, connection),
        0x16 => set::set(rt, operands, connection),
        0x17 => set::set_place(rt, operands, connection),
        0x18 => converse(rt, operands),
        _ => answers::no_operation(rt),
    }
}

// Performs the operation that the first byte names on the operands after it.
pub fn perform(
    rt: HostRuntime,
    operation: u8,
    operands: &[u8],
    connection: &mut Connection,
) -> io::Result<()> {
    if !operands.is_empty() {
        return perform_with(rt, operation, operands, connection);
    }
    match operation {
        0x10 => set::fresh(rt, connection),
        0x12 => by_parts::take(rt, connection),
        0x14 => by_parts::close(rt, connection),
        0x15 => show::show(rt, connection),
        _ => answers::no_operation(rt),
    }
}
