// Report: the engine's outcome for the request in flight. Document 01, "Connection record", and the next states of 003's appendix.
// The refusals come in this order: 24, 18, 19.
ghost use Rattle.std.specs.Prelude.{◌≡◌, false, ◌&&◌, cond, ◌-◌, ◌<◌, ◌≤◌, length};
ghost use Rattle.states.specs.declared.state.State.TheVariants.{Defunct};
ghost use Rattle.states.specs.Requests.{is, in_state};
ghost use Rattle.states.specs.Answers.{told_reported};
ghost use Rattle.bolt.specs.Requests.{RUN};
ghost use Rattle.states.specs.Table.{is_full, streams_after, success_streams, report_first};
ghost use Rattle.record.specs.Ring.{request_in, place_at};
ghost use Rattle.record.specs.Record.{joined, open_of, state_in, kept, waiting_in};
ghost use Rattle.record.specs.Calls.{report_of, carried, nowhere};
ghost use Rattle.steps.specs.Steps.{told_after};
ghost use Rattle.steps.specs.Private.Changes.{Reporting, Laid};

use crate::after::After;
use crate::streams::Opened;
use crate::{changes, opening, outcome, streams};
use record::record::{Control, Queue};
use refusal::Refusal;
use states::answers::{Answered, Outcome};
use states::request;
use states::request::Request;
use states::state::State;

// Brings the engine's outcome for the request in flight, and answers with its summary. Where a RESET came in between, the summary still goes
// out, and nothing else follows from the outcome.
pub fn step(
    control: Control,
    streams: &mut [u64; 8],
    queue: &Queue,
    outcome: Outcome,
) -> After<Result<Answered, Refusal>>
    ensures { told_after told_reported result streams.new queue.now ≡ report_of (joined control streams.old queue.now) outcome }
{
    let state = match opening::state_of(control, streams, queue) {
        Ok(state) => state,
        Err(why) => return After::new(control, Err(why)),
    };
    if control.in_flight != 1 || control.waiting == 0 {
        return After::new(control, Err(Refusal::UnexpectedReport));
    }
    report_first(control, state, streams, queue, outcome)
}

// The outcome of the first request.
fn report_first(
    control: Control,
    state: State,
    streams: &mut [u64; 8],
    queue: &Queue,
    outcome: Outcome,
) -> After<Result<Answered, Refusal>>
    requires { Reporting control streams.old (request_in (place_at queue.now control.first)) × (state ≡ state_in control) }
    ensures { told_after told_reported result streams.new queue.now ≡ carried nowhere (joined control streams.old queue.now) (report_first outcome (kept (joined control streams.old queue.now)) (waiting_in control queue.now)) }
{
    let first = queue.request_at(control.first);
    if !outcome::fits(outcome, first) {
        return After::new(control, Err(Refusal::UnexpectedReport));
    }
    let answered = Answered {
        number: control.sent + 1,
        summary: outcome::summary_of(outcome, state, control.next, first),
    };
    let opened = Opened {
        count: control.opened,
        next: control.next,
    };
    if state == State::Interrupted {
        let control = changes::answered(control, state, opened, control.waiting - 1);
        return After::new(control, Ok(answered));
    }
    let opened = streams_after(outcome, state, streams, opened, first);
    let state = outcome::new_state(outcome, state, first, opened.count);
    let left = left_behind(state, control.waiting);
    After::new(
        changes::answered(control, state, opened, left),
        Ok(answered),
    )
}

// How many wait behind the first: where the connection is over, none.
fn left_behind(state: State, waiting: usize) -> usize
    requires { 0 < waiting }
    ensures { result ≡ cond (in_state state Defunct) 0 (waiting - 1) }
{
    match state {
        State::Defunct => 0,
        _ => waiting - 1,
    }
}

// The open streams after a report.
fn streams_after(
    outcome: Outcome,
    state: State,
    streams: &mut [u64; 8],
    opened: Opened,
    request: Request,
) -> Opened
    requires { (opened.count ≤ 8) × ((length streams.old ≡ 8) × ((is RUN request && is_full state (open_of streams.old opened.count opened.next)) ≡ false)) }
    ensures { Laid (streams_after outcome state (open_of streams.old opened.count opened.next) request) streams.old streams.new result }
{
    match outcome {
        Outcome::Success => success_streams(state, streams, opened, request),
        Outcome::More => opened,
        Outcome::Failure => Opened { count: 0, ..opened },
    }
}

// The open streams after a success.
fn success_streams(state: State, streams: &mut [u64; 8], opened: Opened, request: Request) -> Opened
    requires { (opened.count ≤ 8) × ((length streams.old ≡ 8) × ((is RUN request && is_full state (open_of streams.old opened.count opened.next)) ≡ false)) }
    ensures { Laid (success_streams state (open_of streams.old opened.count opened.next) request) streams.old streams.new result }
{
    match request {
        Request::Discard { .. } | Request::Pull { .. } => {
            let number = request::number_of(request.asked(), opened.next);
            let count = streams::remove(streams, opened.count, number);
            Opened { count, ..opened }
        }
        Request::Run => {
            if !state.in_transaction() {
                return opened;
            }
            streams::push(streams, opened.count, opened.next);
            Opened {
                count: opened.count + 1,
                next: opened.next + 1,
            }
        }
        Request::Begin => Opened { count: 0, next: 0 },
        _ => opened,
    }
}
