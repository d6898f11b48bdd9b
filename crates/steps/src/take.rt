// Take: the turn of the first request that waits. Document 01, "Connection record".
// The refusals come in this order: 24, 18.
ghost use Rattle.std.specs.Prelude.{◌≡◌, ◌<◌, ◌-◌, cond, length};
ghost use Rattle.refusal.specs.Answer.{returned};
ghost use Rattle.states.specs.declared.state.State.TheVariants.{Interrupted, Ready};
ghost use Rattle.states.specs.Requests.{any};
ghost use Rattle.states.specs.Answers.{told_taken};
ghost use Rattle.states.specs.Table.{take_first};
ghost use Rattle.record.specs.Ring.{behind, lined, kind_at, is_reset};
ghost use Rattle.record.specs.Record.{joined, state_in, kept, waiting_in};
ghost use Rattle.record.specs.Calls.{take_of, carried, nowhere};
ghost use Rattle.steps.specs.Steps.{told_after};
ghost use Rattle.steps.specs.Private.Changes.{Answering};

use crate::after::After;
use crate::streams::Opened;
use crate::{changes, opening};
use record::record::{Control, Queue};
use record::{ring, turn};
use refusal::Refusal;
use states::answers::{Answered, Failure, Summary, Taken};
use states::state::State;
use states::turn::Turn;

// Looks at the first request that waits, and answers it, hands it to the engine, or closes the connection. While one is in flight, and while
// none waits, it is idle.
pub fn step(control: Control, streams: &[u64; 8], queue: &Queue) -> After<Result<Taken, Refusal>>
    ensures { told_after told_taken result streams.now queue.now ≡ take_of (joined control streams.now queue.now) }
{
    let state = match opening::state_of(control, streams, queue) {
        Ok(state) => state,
        Err(why) => return After::new(control, Err(why)),
    };
    if control.in_flight == 1 || control.waiting == 0 {
        return After::new(control, Ok(Taken::Idle));
    }
    take_first(control, state, streams, queue)
}

// The turn of the first request.
fn take_first(
    control: Control,
    state: State,
    streams: &[u64; 8],
    queue: &Queue,
) -> After<Result<Taken, Refusal>>
    requires { Answering control × ((state ≡ state_in control) × (length streams.now ≡ 8)) }
    ensures { told_after told_taken result streams.now queue.now ≡ carried nowhere (joined control streams.now queue.now) (returned (take_first (kept (joined control streams.now queue.now)) (waiting_in control queue.now))) }
{
    let first = queue.request_at(control.first);
    let turn = turn::turn_of(state, streams, control.opened, control.next, first);
    let (state, count, summary) = match turn {
        Turn::Closes => return After::new(changes::defunct(control), Ok(Taken::Closed)),
        Turn::Handed => {
            let handed = Taken::Handed {
                number: control.sent + 1,
                request: first,
            };
            return After::new(changes::handed(control), Ok(handed));
        }
        Turn::Resets => {
            let state = after_reset(queue, control.first, control.waiting);
            (state, 0, Summary::Success)
        }
        Turn::Ignored => (state, control.opened, Summary::Ignored),
        Turn::Full => (State::Failed, 0, Summary::Failure(Failure::StreamsFull)),
        Turn::Unknown => (State::Failed, 0, Summary::Failure(Failure::StreamUnknown)),
    };
    let opened = Opened {
        count,
        next: control.next,
    };
    let answered = Answered {
        number: control.sent + 1,
        summary,
    };
    let control = changes::answered(control, state, opened, control.waiting - 1);
    After::new(control, Ok(Taken::Answered(answered)))
}

// The state after a RESET: INTERRUPTED while another one waits behind it.
fn after_reset(queue: &Queue, first: usize, waiting: usize) -> State
    requires { 0 < waiting }
    ensures { result ≡ cond (any is_reset (lined (kind_at queue.now.kinds) (behind first) (waiting - 1))) Interrupted Ready }
{
    if queue.has_reset(ring::behind(first), waiting - 1) {
        return State::Interrupted;
    }
    State::Ready
}
