// Operations 10, 16 and 17: another record in the old one's stead, or another place of its ring. A record is set as its bytes say, whether it
// keeps the standing rules or not. Bytes up to 255 are set as they are; the first 32 requests and 8 numbers follow their counts, and the
// places behind these are as a fresh record has them.
ghost use Rattle.std.specs.Prelude.{◌≤◌};

use crate::operands::{count_at, number_at};
use crate::{answers, request_bytes};
use console::operands::{byte_at, signed_at};
use console::output;
use record::record::{Connection, Control, Queue};
use record::{names, ring};
use std::io;

pub fn fresh(rt: HostRuntime, connection: &mut Connection) -> io::Result<()> {
    *connection = record::record::fresh();
    output::byte(rt, 0x00)
}

// The first four bytes are the state, whether one is in flight, the first place, and how many wait.
const REQUESTS_AT: usize = 4;

// The first `count` requests go to their places, from the first on; where they end.
fn place_requests(operands: &[u8], first: usize, count: usize, queue: &mut Queue) -> usize
    requires { count ≤ 32 }
    ensures { result ≤ 2000000 }
{
    let mut from = REQUESTS_AT;
    let mut at = first;
    for _ in 0..count {
        let request = request_bytes::request_at(operands, from);
        let place = at % 32;
        let (n, qid) = names::numbers_of(request);
        queue.kinds[place] = request.tag();
        queue.counts[place] = n;
        queue.qids[place] = qid;
        from += request_bytes::size_at(operands, from);
        at = ring::behind(at);
    }
    from
}

// The first `shown` open numbers, from `at` on.
fn streams_of(operands: &[u8], at: usize, shown: usize) -> [u64; 8]
    requires { (at ≤ 2000001) × (shown ≤ 8) }
{
    let mut numbers = [0u64; 8];
    for i in 0..shown {
        numbers[i] = number_at(operands, at + 8 * i);
    }
    numbers
}

// The control: the count of open numbers stands at `open_at`, the next number and the counts of requests at the end.
fn control_of(operands: &[u8], open_at: usize, shown: usize) -> Control
    requires { (open_at ≤ 2000000) × (shown ≤ 8) }
{
    let next_at = open_at + 1 + 8 * shown;
    Control {
        state: byte_at(operands, 0),
        in_flight: byte_at(operands, 1),
        first: count_at(operands, 2),
        waiting: count_at(operands, 3),
        opened: count_at(operands, open_at),
        next: number_at(operands, next_at),
        accepted: number_at(operands, next_at + 8),
        sent: number_at(operands, next_at + 16),
    }
}

pub fn set(rt: HostRuntime, operands: &[u8], connection: &mut Connection) -> io::Result<()> {
    let mut queue = record::record::fresh().queue;
    let first = count_at(operands, 2);
    let waiting = count_at(operands, 3).min(32);
    let open_at = place_requests(operands, first, waiting, &mut queue);
    let open = count_at(operands, open_at).min(8);
    if operands.len() != open_at + 25 + 8 * open {
        return answers::no_operation(rt);
    }
    *connection = Connection {
        control: control_of(operands, open_at, open),
        streams: streams_of(operands, open_at + 1, open),
        queue,
    };
    output::byte(rt, 0x00)
}

pub fn set_place(rt: HostRuntime, operands: &[u8], connection: &mut Connection) -> io::Result<()> {
    let place = count_at(operands, 0);
    if operands.len() != 18 || 32 <= place {
        return answers::no_operation(rt);
    }
    connection.queue.kinds[place] = byte_at(operands, 1);
    connection.queue.counts[place] = signed_at(operands, 2);
    connection.queue.qids[place] = signed_at(operands, 10);
    output::byte(rt, 0x00)
}
