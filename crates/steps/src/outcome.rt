// What follows from the engine's outcome for a request: whether it fits, the summary, and the new state of 003's appendix.
// Outcome, state and request come from three places (the caller, the control, the queue), and no one struct of them would be passed on.
ghost use Rattle.std.specs.Prelude.{◌≡◌, true, ◌≤◌};
ghost use Rattle.states.specs.declared.answers.Outcome.TheVariants.{Success};
ghost use Rattle.states.specs.Requests.{kind_of};
ghost use Rattle.states.specs.Appendix.{new_state, hands_over};
ghost use Rattle.states.specs.Table.{fitting, response, success_summary, summary_of};
ghost use Rattle.states.specs.Private.Outcomes.{last_state, failure_state};

use states::answers::{Failure, Outcome, Summary};
use states::request::Request;
use states::state::State;

// Whether an outcome fits a request: success with more is for PULL and DISCARD only.
pub fn fits(outcome: Outcome, request: Request) -> bool
    ensures { result ≡ fitting outcome request }
{
    match outcome {
        Outcome::Success | Outcome::Failure => true,
        Outcome::More => request.fetches(),
    }
}

pub fn summary_of(outcome: Outcome, state: State, next: u64, request: Request) -> Summary
    requires { next ≤ 65536 }
    ensures { result ≡ summary_of outcome state next request }
{
    match outcome {
        Outcome::Success => success_summary(state, next, request),
        Outcome::More => Summary::HasMore(true),
        Outcome::Failure => Summary::Failure(Failure::EngineFailed),
    }
}

// The summary of a success: has_more for PULL and DISCARD, the stream's number for RUN in a transaction.
#[tactic(auto, unfolding(states::specs::Table::success_summary))]
fn success_summary(state: State, next: u64, request: Request) -> Summary
    requires { next ≤ 65536 }
    ensures { result ≡ success_summary state next request }
{
    match request {
        Request::Discard { .. } | Request::Pull { .. } => Summary::HasMore(false),
        Request::Run => {
            if state.in_transaction() {
                return Summary::Stream(next as u32);
            }
            Summary::Success
        }
        _ => Summary::Success,
    }
}

// The state after a report, with `left` streams open.
pub fn new_state(outcome: Outcome, state: State, request: Request, left: usize) -> State
    requires { (hands_over state (kind_of request) ≡ true) × (fitting outcome request ≡ true) }
    ensures { result ≡ new_state state (kind_of request) (response outcome request left) }
{
    match outcome {
        Outcome::Success => after_success(state, request, left),
        Outcome::More => state,
        Outcome::Failure => after_failure(request),
    }
}

// The state after a failure: FAILED, but a HELLO that fails closes.
fn after_failure(request: Request) -> State
    ensures { result ≡ failure_state (kind_of request) }
{
    match request {
        Request::Hello => State::Defunct,
        _ => State::Failed,
    }
}

// The state after a success.
#[tactic(auto, using(crate::proofs::Outcomes::succeeds))]
fn after_success(state: State, request: Request, left: usize) -> State
    requires { hands_over state (kind_of request) ≡ true }
    ensures { result ≡ new_state state (kind_of request) (response Success request left) }
{
    match request {
        Request::Hello | Request::Commit | Request::Rollback => State::Ready,
        Request::Goodbye | Request::Reset => state,
        Request::Run => {
            if state == State::Ready {
                return State::Streaming;
            }
            State::TxStreaming
        }
        Request::Begin => State::TxReady,
        Request::Discard { .. } | Request::Pull { .. } => after_last(state, left),
    }
}

// The state after the last batch of a stream. While other streams are open, the transaction goes on streaming.
fn after_last(state: State, left: usize) -> State
    ensures { result ≡ last_state state left }
{
    if left == 0 {
        return match state {
            State::Streaming => State::Ready,
            _ => State::TxReady,
        };
    }
    state
}
