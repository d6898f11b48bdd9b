// Operation 15: the record shown, in the numbers that it consists of. The answer is 00 and
//
//     state (1)          00 CONNECTED, 01 READY, 02 STREAMING, 03 TX_READY, 04 TX_STREAMING, 05 FAILED, 06 INTERRUPTED, 07 DEFUNCT
//     in flight (1)
//     first (1)          the place of the first request that waits
//     waiting count (1)  and what stands in each of so many places, from the first on around the ring: tag (1) and, for DISCARD and PULL,
//                        n (8) and qid (8)
//     open count (1)     and each open number (8)
//     next number (8)
//     accepted (8)
//     sent (8)
//
// Where operations 16 and 17 have set it so, a state or a tag may name nothing, the first place may be over 31, and a count over 32 or 8; the
// record has no more than 32 places and 8 numbers to show then.
ghost use Rattle.std.specs.Prelude.{◌≤◌};

use crate::request_bytes;
use console::output;
use record::record::{Connection, Queue};
use record::ring;
use std::io;

// What stands in `count` places, from the first on.
fn show_places(rt: HostRuntime, queue: &Queue, first: usize, count: usize) -> io::Result<()> {
    let mut at = first;
    for _ in 0..count {
        let place = at % 32;
        let kind = queue.kinds[place];
        output::byte(rt, kind)?;
        request_bytes::write_numbers(rt, kind, queue.counts[place], queue.qids[place])?;
        at = ring::behind(at);
    }
    Ok(())
}

// The first `count` open numbers.
fn show_open(rt: HostRuntime, streams: &[u64; 8], count: usize) -> io::Result<()>
    requires { count ≤ 8 }
{
    for number in &streams[..count] {
        output::unsigned(rt, *number, 8)?;
    }
    Ok(())
}

pub fn show(rt: HostRuntime, connection: &Connection) -> io::Result<()> {
    let control = connection.control;
    output::byte(rt, 0x00)?;
    output::byte(rt, control.state)?;
    output::byte(rt, control.in_flight)?;
    output::size(rt, control.first, 1)?;
    output::size(rt, control.waiting, 1)?;
    show_places(
        rt,
        &connection.queue,
        control.first,
        control.waiting.min(32),
    )?;
    output::size(rt, control.opened, 1)?;
    show_open(rt, &connection.streams, control.opened.min(8))?;
    output::unsigned(rt, control.next, 8)?;
    output::unsigned(rt, control.accepted, 8)?;
    output::unsigned(rt, control.sent, 8)
}
