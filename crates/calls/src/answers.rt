// What the calls answer, written as bytes.
use crate::conversation::Heard;
use crate::request_bytes;
use console::output;
use record::names;
use refusal::Refusal;
use states::answers::{Answered, Arrival, Taken};
use states::request::Request;
use std::io;

// The longest summary has 60 bytes.
const ROOM: usize = 64;

// A line that is no operation changes nothing.
pub fn no_operation(rt: HostRuntime) -> io::Result<()> {
    output::byte(rt, 0xFE)
}

// FF, the refusal's number, and place 0.
fn refused(rt: HostRuntime, why: Refusal) -> io::Result<()> {
    output::byte(rt, 0xFF)?;
    output::byte(rt, why.number())?;
    output::unsigned(rt, 0, 4)
}

// 03, the request's tag and number, and its own numbers.
fn handed(rt: HostRuntime, request: Request, number: u64) -> io::Result<()> {
    let kind = request.tag();
    let (n, qid) = names::numbers_of(request);
    output::byte(rt, 0x03)?;
    output::byte(rt, kind)?;
    output::unsigned(rt, number, 4)?;
    request_bytes::write_numbers(rt, kind, n, qid)
}

// 04, the request's number, and the summary that answers it.
fn answered(rt: HostRuntime, answered: Answered) -> io::Result<()> {
    let mut packed = [0u8; ROOM];
    match summaries::summary::pack_summary(answered.summary, &mut packed, 0) {
        Ok(n) => {
            output::byte(rt, 0x04)?;
            output::unsigned(rt, answered.number, 4)?;
            output::front(rt, &packed, n)
        }
        Err(why) => refused(rt, why),
    }
}

pub fn arrival(rt: HostRuntime, answer: Result<Arrival, Refusal>) -> io::Result<()> {
    match answer {
        Ok(Arrival::Queued) => output::byte(rt, 0x00),
        Ok(Arrival::Closed) => output::byte(rt, 0x01),
        Err(why) => refused(rt, why),
    }
}

pub fn taken(rt: HostRuntime, answer: Result<Taken, Refusal>) -> io::Result<()> {
    match answer {
        Ok(Taken::Idle) => output::byte(rt, 0x02),
        Ok(Taken::Closed) => output::byte(rt, 0x01),
        Ok(Taken::Handed { number, request }) => handed(rt, request, number),
        Ok(Taken::Answered(summary)) => answered(rt, summary),
        Err(why) => refused(rt, why),
    }
}

pub fn reported(rt: HostRuntime, answer: Result<Answered, Refusal>) -> io::Result<()> {
    match answer {
        Ok(summary) => answered(rt, summary),
        Err(why) => refused(rt, why),
    }
}

pub fn closing(rt: HostRuntime, answer: Result<(), Refusal>) -> io::Result<()> {
    match answer {
        Ok(()) => output::byte(rt, 0x01),
        Err(why) => refused(rt, why),
    }
}

// The answers of a conversation, one behind the other.
pub fn heard(rt: HostRuntime, all: Heard) -> io::Result<()> {
    arrival(rt, all.arrival)?;
    taken(rt, all.taken)?;
    reported(rt, all.reported)?;
    arrival(rt, all.second_arrival)?;
    taken(rt, all.second_taken)?;
    reported(rt, all.second_reported)?;
    closing(rt, all.closing)
}
