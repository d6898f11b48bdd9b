// What the calls answer, where they refuse nothing: for each call a type with just the cases that it can give.
// Document 01, "Connection record" and "Summaries".
use super::request::Request;

// How the engine ended a request: with success, with success and more to fetch (PULL and DISCARD only), or not at all.
#[derive(Clone, Copy, Debug, PartialEq, Eq)]
pub enum Outcome {
    Success,
    More,
    Failure,
}

// The texts of a FAILURE: "Parts.Stream.Full", "Parts.Stream.Unknown" and "Parts.Engine.Failed".
#[derive(Clone, Copy, Debug, PartialEq, Eq)]
pub enum Failure {
    StreamsFull,
    StreamUnknown,
    EngineFailed,
}

// A summary: IGNORED, SUCCESS with nothing, with has_more or with the qid of the stream it opened, or FAILURE.
#[derive(Clone, Copy, Debug, PartialEq, Eq)]
pub enum Summary {
    Ignored,
    Success,
    HasMore(bool),
    Stream(u32),
    Failure(Failure),
}

#[derive(Clone, Copy, Debug, PartialEq, Eq)]
pub enum Arrival {
    Queued,
    // A RESET that came before HELLO: it was accepted, and it closed the connection.
    Closed,
}

// A number stands in front of its request or summary, so that both begin at one place: what was stored of one is then loaded as it was stored.

// For the client: the summary of the request with this number.
#[derive(Clone, Copy, Debug, PartialEq, Eq)]
pub struct Answered {
    pub number: u64,
    pub summary: Summary,
}

#[derive(Clone, Copy, Debug, PartialEq, Eq)]
pub enum Taken {
    // None waits, or one is in flight.
    Idle,
    Closed,
    // For the engine, which is to report on it.
    Handed { number: u64, request: Request },
    Answered(Answered),
}
