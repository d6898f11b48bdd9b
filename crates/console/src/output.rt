// Standard output: bytes and numbers as upper-case hexadecimal digits, two a byte, and text as it stands.
use std::io;

// How many bytes are written at a time.
const PIECE: usize = 256;

pub fn text(rt: HostRuntime, words: &[u8]) -> io::Result<()> {
    rt.write_all(words)
}

pub fn line_end(rt: HostRuntime) -> io::Result<()> {
    text(rt, b"\n")
}

pub fn bytes(rt: HostRuntime, bytes: &[u8]) -> io::Result<()> {
    let mut digits = [0u8; 2 * PIECE];
    for piece in bytes.chunks(PIECE) {
        if let Ok(n) = hex_lines::encode(piece, &mut digits) {
            text(rt, &digits[..n])?;
        }
    }
    Ok(())
}

// The first `size` bytes, or all where there are fewer.
pub fn front(rt: HostRuntime, all: &[u8], size: usize) -> io::Result<()> {
    bytes(rt, &all[..size.min(all.len())])
}

pub fn byte(rt: HostRuntime, b: u8) -> io::Result<()> {
    bytes(rt, &[b])
}

// The lowest `width` bytes of a number, at most eight, the highest first.
pub fn unsigned(rt: HostRuntime, number: u64, width: usize) -> io::Result<()> {
    bytes(rt, &number.to_be_bytes()[8 - width.min(8)..])
}

// The same for places, sizes and counts.
pub fn size(rt: HostRuntime, size: usize, width: usize) -> io::Result<()> {
    unsigned(rt, size as u64, width)
}

// An integer in eight bytes, in two's complement.
pub fn signed(rt: HostRuntime, number: i64) -> io::Result<()> {
    bytes(rt, &number.to_be_bytes())
}
