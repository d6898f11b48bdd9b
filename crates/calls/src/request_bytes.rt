// Requests as bytes: the tag and, for DISCARD and PULL, n and qid.
ghost use Rattle.std.specs.Prelude.{◌≤◌};

use console::{operands, output};
use record::names;
use states::request;
use states::request::Request;
use std::io;

// More than a line has bytes: no line is long enough for a request whose tag names none.
const NO_REQUEST: usize = 40001;

// How many bytes the request at `at` takes.
pub fn size_at(operands: &[u8], at: usize) -> usize
    ensures { result ≤ 40001 }
{
    match operands::byte_at(operands, at) {
        request::DISCARD | request::PULL => 17,
        kind if names::is_request(kind) => 1,
        _ => NO_REQUEST,
    }
}

// The request at `at`.
pub fn request_at(operands: &[u8], at: usize) -> Request
    requires { at ≤ 2000000 }
{
    let kind = operands::byte_at(operands, at);
    let n = operands::signed_at(operands, at + 1);
    let qid = operands::signed_at(operands, at + 9);
    names::request_of(kind, n, qid)
}

// Writes n and qid behind a tag, where it is one of those that carry them.
pub fn write_numbers(rt: HostRuntime, kind: u8, n: i64, qid: i64) -> io::Result<()> {
    if kind == request::DISCARD || kind == request::PULL {
        output::signed(rt, n)?;
        output::signed(rt, qid)?;
    }
    Ok(())
}
