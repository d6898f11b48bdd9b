// The standing rules of document 01, "Connection record", and the ring's bounds: a check for each clause. Each call checks them all before
// anything else, so that no call ever works on a record that another program has spoilt.
// The streams and the numbers beside them are parameters of their own for the reason that turn.rt gives.
ghost use Rattle.std.specs.Prelude.{◌≡◌, ◌&&◌, ◌≤◌, length};
ghost use Rattle.states.specs.Rules.{may_be_in_flight, open_rule, flight_rule, counts_rule, numbers_rule};
ghost use Rattle.record.specs.Record.{joined, open_of, state_in, is_in_flight, open_in, waiting_in, bounded, keeps_rules};
ghost use Rattle.record.specs.Private.Seen.{seen_holds};

use crate::record::{Control, Queue};
use crate::scan::Seen;
use crate::{names, scan, streams, turn as turns};
use states::request::Request;
use states::state::State;
use states::turn;

// Whether the first request can be in flight.
#[tactic(auto, unfolding(states::specs::Rules::may_be_in_flight))]
fn may_be_in_flight(
    state: State,
    streams: &[u64; 8],
    opened: usize,
    next: u64,
    request: Request,
) -> bool
    ensures { result ≡ may_be_in_flight state (open_of streams.now opened next) request }
{
    if state == State::Interrupted {
        return turn::is_work(request);
    }
    turns::is_handed_over(state, streams, opened, next, request)
}

// Outside DEFUNCT accepted = sent + waiting.
#[tactic(auto, unfolding(states::specs::Rules::counts_rule))]
fn counts_hold(state: State, waiting: usize, accepted: u64, sent: u64) -> bool
    ensures { result ≡ counts_rule state waiting accepted sent }
{
    if 4294967295 < accepted || accepted < sent {
        return false;
    }
    if state == State::Defunct {
        return waiting == 0;
    }
    accepted - sent == waiting as u64
}

// Whether the control's numbers have their bounds: the places of the arrays, and what names a state and a truth value.
#[tactic(auto, unfolding(crate::specs::Record::bounded))]
fn is_bounded(control: Control) -> bool
    ensures { result ≡ bounded control }
{
    control.state <= 7
        && control.in_flight <= 1
        && control.first < 32
        && control.waiting <= 32
        && control.opened <= 8
}

// None open but in STREAMING, whose one stream has no number, and in TX_STREAMING; the open numbers distinct and below the next.
#[tactic(auto, unfolding(states::specs::Rules::numbers_rule))]
fn streams_hold(state: State, streams: &[u64; 8], opened: usize, next: u64) -> bool
    requires { opened ≤ 8 }
    ensures { result ≡ (numbers_rule (open_of streams.now opened next) && open_rule state (open_of streams.now opened next)) }
{
    if 65536 < next || !streams::are_valid(streams, opened, next) {
        return false;
    }
    (state == State::TxStreaming) == (1 <= streams::held(streams, opened))
}

// In flight only the first waiting, and only where it may be.
#[tactic(auto, using(crate::proofs::Standing::one_flies))]
fn flight_holds(control: Control, streams: &[u64; 8], queue: &Queue) -> bool
    ensures { result ≡ flight_rule (is_in_flight control) (state_in control) (open_in control streams.now) (waiting_in control queue.now) }
{
    if control.in_flight != 1 {
        return true;
    }
    if control.waiting == 0 {
        return false;
    }
    let state = names::state_of(control.state);
    let first = queue.request_at(control.first);
    may_be_in_flight(state, streams, control.opened, control.next, first)
}

// The waiting requests: every place names one, with its numbers in their ranges, and INTERRUPTED exactly if a RESET waits.
fn waiting_holds(state: State, seen: Seen) -> bool
    ensures { result ≡ seen_holds state seen }
{
    match seen {
        Seen::Plain => state != State::Interrupted,
        Seen::WithReset => state == State::Interrupted,
        Seen::Wrong => false,
    }
}

// Whether the parts of a record keep the standing rules.
#[tactic(auto, using(crate::proofs::Standing::in_parts), unfolding(crate::specs::Record::bounded))]
fn all_hold(control: Control, streams: &[u64; 8], queue: &Queue) -> bool
    ensures told { result ≡ keeps_rules (joined control streams.now queue.now) }
    ensures sized { length streams.now ≡ 8 }
{
    if !is_bounded(control) {
        return false;
    }
    let state = names::state_of(control.state);
    if !counts_hold(state, control.waiting, control.accepted, control.sent) {
        return false;
    }
    if !streams_hold(state, streams, control.opened, control.next) {
        return false;
    }
    let seen = scan::scan(queue, control.first, control.waiting);
    waiting_holds(state, seen) && flight_holds(control, streams, queue)
}

// Whether a record keeps the standing rules. Its control comes as numbers, for speed: as a whole it would be copied, and the copy would wait for
// what the call before this one has stored.
pub fn keeps_rules(
    state: u8,
    in_flight: u8,
    first: usize,
    waiting: usize,
    opened: usize,
    next: u64,
    accepted: u64,
    sent: u64,
    streams: &[u64; 8],
    queue: &Queue,
) -> bool
    ensures told { result ≡ keeps_rules (joined (record { state = state; in_flight = in_flight; first = first; waiting = waiting; opened = opened; next = next; accepted = accepted; sent = sent }) streams.now queue.now) }
    ensures sized { length streams.now ≡ 8 }
{
    let control = Control {
        state,
        in_flight,
        first,
        waiting,
        opened,
        next,
        accepted,
        sent,
    };
    all_hold(control, streams, queue)
}
