// Operations 04 and 19: a message read as a value. The answer is 00 and
//
//     00  Null
//     01  Boolean (1)
//     02  Integer (8)
//     03  Float: its bits (8)
//     04  Bytes: start (4) size (4) of the content
//     05  String: start (4) size (4) of the content
//     06  List: count (4)
//     07  Dictionary: count (4)
//     08  Structure: tag (1) count (1)
//
// which 19 goes on with for the values inside: those of a container stand behind it.
use crate::answers;
use console::output;
use std::io;
use values::head::Head;

fn show_content(rt: HostRuntime, kind: u8, start: usize, size: usize) -> io::Result<()> {
    output::byte(rt, kind)?;
    output::size(rt, start, 4)?;
    output::size(rt, size, 4)
}

fn show_count(rt: HostRuntime, kind: u8, count: usize) -> io::Result<()> {
    output::byte(rt, kind)?;
    output::size(rt, count, 4)
}

fn show(rt: HostRuntime, head: Head) -> io::Result<()> {
    match head {
        Head::Null => output::byte(rt, 0x00),
        Head::Boolean(value) => {
            output::byte(rt, 0x01)?;
            output::byte(rt, value as u8)
        }
        Head::Integer(number) => {
            output::byte(rt, 0x02)?;
            output::signed(rt, number)
        }
        Head::Float(bits) => {
            output::byte(rt, 0x03)?;
            output::unsigned(rt, bits, 8)
        }
        Head::Bytes { start, size } => show_content(rt, 0x04, start, size),
        Head::String { start, size } => show_content(rt, 0x05, start, size),
        Head::List { count, .. } => show_count(rt, 0x06, count),
        Head::Dictionary { count, .. } => show_count(rt, 0x07, count),
        Head::Structure { tag, count, .. } => {
            output::byte(rt, 0x08)?;
            output::byte(rt, tag)?;
            output::size(rt, count, 1)
        }
    }
}

pub fn read_value(rt: HostRuntime, message: &[u8]) -> io::Result<()> {
    match values::read::read_message(message) {
        Ok(found) => {
            output::byte(rt, 0x00)?;
            show(rt, found.head)
        }
        Err(fault) => answers::refused(rt, fault),
    }
}

// Where the next marker is: behind a value that holds no other, or the first thing that a container holds.
fn next(message: &[u8], at: usize, head: Head) -> usize {
    match head {
        Head::List { first, .. } | Head::Dictionary { first, .. } | Head::Structure { first, .. } =>
            first,
        _ => values::walk::skip(message, at).unwrap_or(message.len()),
    }
}

// Shows each value, by the order of their markers. There are at most as many as bytes.
fn show_all(rt: HostRuntime, message: &[u8]) -> io::Result<()> {
    let mut at = 0;
    for _ in 0..message.len() {
        let Some(head) = values::walk::peek(message, at) else {
            break;
        };
        show(rt, head)?;
        at = next(message, at, head);
    }
    Ok(())
}

pub fn read_values(rt: HostRuntime, message: &[u8]) -> io::Result<()> {
    match values::read::read_message(message) {
        Ok(_) => {
            output::byte(rt, 0x00)?;
            show_all(rt, message)
        }
        Err(fault) => answers::refused(rt, fault),
    }
}
