// Operations 01 to 03: the handshake, and frames read and written.
use crate::{answers, operands};
use console::output;
use framing::reader::Frame;
use handshake::version::Version;
use std::io;

pub fn negotiate(rt: HostRuntime, input: &[u8]) -> io::Result<()> {
    match handshake::negotiation::negotiate(input) {
        Ok(version) => {
            output::byte(rt, 0x00)?;
            output::bytes(rt, &version.to_bytes())
        }
        Err(why) => answers::refused(rt, why.into()),
    }
}

// The version that a minor names.
pub fn version_of(minor: u8) -> Option<Version> {
    Version::from_bytes([0, 0, minor, 4])
}

pub fn read_frame(rt: HostRuntime, operands: &[u8], space: &mut [u8]) -> io::Result<()> {
    if operands.len() < 5 {
        return answers::no_vector(rt);
    }
    let room = operands::size_at(operands, 1, 4);
    if space.len() < room {
        return answers::no_vector(rt);
    }
    let Some(version) = version_of(operands[0]) else {
        return answers::no_vector(rt);
    };
    match framing::reader::read_frame(version, &operands[5..], &mut space[..room]) {
        Ok(Frame::Message { length, consumed }) => {
            output::byte(rt, 0x00)?;
            output::size(rt, length, 4)?;
            output::size(rt, consumed, 4)?;
            output::front(rt, space, length)
        }
        Ok(Frame::KeepAlive) => {
            output::byte(rt, 0x01)?;
            output::size(rt, 2, 4)
        }
        Err(why) => answers::refused(rt, why.into()),
    }
}

pub fn write_chunks(rt: HostRuntime, operands: &[u8], space: &mut [u8]) -> io::Result<()> {
    if operands.len() < 8 {
        return answers::no_vector(rt);
    }
    let room = operands::size_at(operands, 4, 4);
    if space.len() < room {
        return answers::no_vector(rt);
    }
    let chunk_size = operands::size_at(operands, 0, 4);
    match framing::writer::write_chunks(&operands[8..], chunk_size, &mut space[..room]) {
        Ok(n) => {
            output::byte(rt, 0x00)?;
            output::front(rt, space, n)
        }
        Err(why) => answers::refused(rt, why.into()),
    }
}
