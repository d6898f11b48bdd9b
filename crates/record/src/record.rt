// The record of one connection: a small control, which every call is given by value, and two parts that the calls are lent where they lie.
// Document 01, "Connection record"; document 02, request 9. All of it is numbers, so that C and Rust hold the record itself.
ghost use Rattle.std.specs.Prelude.{◌≡◌};
ghost use Rattle.record.specs.Record.{fresh as fresh_record};

// All of a record but its arrays. The state and the flag are numbers, since C holds them.
#[repr(C)]
#[derive(Clone, Copy)]
pub struct Control {
    // A state by its place in 003's list.
    pub state: u8,
    // 1 while the first request that waits is in flight: handed to the engine, and not yet reported on; else 0.
    pub in_flight: u8,
    // The place of the first request that waits, and how many wait.
    pub first: usize,
    pub waiting: usize,
    // How many numbered streams are open, and the number that the next one gets.
    pub opened: usize,
    pub next: u64,
    // How many requests were accepted, and how many summaries sent.
    pub accepted: u64,
    pub sent: u64,
}

// The requests that wait stand around a ring, from the control's first place on: each place has a request's tag and, of DISCARD and PULL, its n
// and qid. What the other places hold never matters. Three arrays of numbers, and not one of structs: C holds them so.
#[repr(C)]
#[derive(Clone, Copy)]
pub struct Queue {
    pub kinds: [u8; 32],
    pub counts: [i64; 32],
    pub qids: [i64; 32],
}

// The numbers of the open streams stand at the front of theirs.
#[repr(C)]
#[derive(Clone, Copy)]
pub struct Connection {
    pub control: Control,
    pub streams: [u64; 8],
    pub queue: Queue,
}

// A fresh record: CONNECTED, with nothing counted, waiting or open. It is all zeros.
pub fn fresh() -> Connection
    ensures { result ≡ fresh_record }
{
    Connection {
        control: Control {
            state: 0,
            in_flight: 0,
            first: 0,
            waiting: 0,
            opened: 0,
            next: 0,
            accepted: 0,
            sent: 0,
        },
        streams: [0; 8],
        queue: Queue {
            kinds: [0; 32],
            counts: [0; 32],
            qids: [0; 32],
        },
    }
}

// The same control, field by field, for speed. Copied as a whole it would bring the gap behind its two bytes along, and be loaded in pieces other
// than those that were stored: a call would wait for the stores of the one before.
pub fn renewed(control: Control) -> Control
    ensures { result ≡ control }
{
    Control {
        state: control.state,
        in_flight: control.in_flight,
        first: control.first,
        waiting: control.waiting,
        opened: control.opened,
        next: control.next,
        accepted: control.accepted,
        sent: control.sent,
    }
}
