// What becomes of a request whose turn comes: document 01, "Connection record", Take, and the rows of 003's appendix, with those that document
// 02, request 2, adds for FAILED. Whatever no row names closes the connection. The open streams come as three parts, since their array lies apart
// from the control that counts them: a struct of the three would be made anew at each call, and read once.
ghost use Rattle.std.specs.Prelude.{◌≡◌, ◌&&◌, ◌||◌, leb};
ghost use Rattle.states.specs.Requests.{in_transaction};
ghost use Rattle.states.specs.Table.{turn_of, names_open};
ghost use Rattle.states.specs.Rules.{is_handed};
ghost use Rattle.record.specs.Record.{open_of};

use crate::streams;
use states::request::Request;
use states::state::State;
use states::turn::Turn;
use states::{request, turn};

// Whether a RUN in this state can open no stream.
fn is_full(state: State, opened: usize, next: u64) -> bool
    ensures { result ≡ (in_transaction state && (leb 8 opened || leb 65536 next)) }
{
    state.in_transaction() && (8 <= opened || 65536 <= next)
}

// Whether a request names an open stream.
#[tactic(auto, unfolding(states::specs::Table::names_open))]
fn names_open(state: State, streams: &[u64; 8], opened: usize, next: u64, request: Request) -> bool
    ensures { result ≡ names_open state (open_of streams.now opened next) request }
{
    let asked = request.asked();
    if state == State::Streaming {
        return asked.is_none();
    }
    streams::is_open(streams, 0, opened, request::number_of(asked, next))
}

// What becomes of a request whose turn comes, with the first `opened` streams open.
#[tactic(auto, unfolding(states::specs::Table::turn_of, states::specs::Table::is_full))]
pub fn turn_of(state: State, streams: &[u64; 8], opened: usize, next: u64, request: Request) -> Turn
    ensures { result ≡ turn_of state (open_of streams.now opened next) request }
{
    if request == Request::Reset {
        return Turn::Resets;
    }
    if turn::is_ignored(state, request) {
        return Turn::Ignored;
    }
    if !turn::hands_over(state, request) {
        return Turn::Closes;
    }
    if request == Request::Run {
        if is_full(state, streams::held(streams, opened), next) {
            return Turn::Full;
        }
        return Turn::Handed;
    }
    if request.fetches() && !names_open(state, streams, opened, next, request) {
        return Turn::Unknown;
    }
    Turn::Handed
}

// Whether a request goes to the engine, with the first `opened` streams open.
pub fn is_handed_over(
    state: State,
    streams: &[u64; 8],
    opened: usize,
    next: u64,
    request: Request,
) -> bool
    ensures { result ≡ is_handed (turn_of state (open_of streams.now opened next) request) }
{
    matches!(turn_of(state, streams, opened, next, request), Turn::Handed)
}
