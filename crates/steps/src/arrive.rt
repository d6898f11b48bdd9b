// Arrive: a request has come, and goes to the place behind the last one that waits. Document 01, "Connection record".
// The refusals come in this order: 24, 18, 27, 20, 17.
ghost use Rattle.std.specs.Prelude.{◌≡◌, ◌<◌};
ghost use Rattle.states.specs.Answers.{told_arrival};
ghost use Rattle.record.specs.Ring.{place};
ghost use Rattle.record.specs.Record.{joined, state_in};
ghost use Rattle.record.specs.Calls.{arrive_of, holding};
ghost use Rattle.steps.specs.Steps.{told_after};
ghost use Rattle.steps.specs.Private.Changes.{Accepting, Accepts};

use crate::after::After;
use crate::{changes, opening};
use record::names;
use record::record::{Control, Queue};
use refusal::Refusal;
use states::answers::Arrival;
use states::request::Request;
use states::state::State;

// A request has come. A RESET interrupts what is going on at once; before HELLO it closes the connection.
pub fn step(
    control: Control,
    streams: &[u64; 8],
    queue: &mut Queue,
    request: Request,
) -> After<Result<Arrival, Refusal>>
    ensures { told_after told_arrival result streams.now queue.new ≡ arrive_of (joined control streams.now queue.old) request }
{
    let state = match opening::state_of(control, streams, queue) {
        Ok(state) => state,
        Err(why) => return After::new(control, Err(why)),
    };
    if !request.is_in_range() {
        return After::new(control, Err(Refusal::OutOfRange));
    }
    if 4294967295 <= control.accepted {
        return After::new(control, Err(Refusal::RequestLimitReached));
    }
    if 32 <= control.waiting {
        return After::new(control, Err(Refusal::QueueFull));
    }
    accept(control, state, queue, request)
}

// A request is accepted. RESET interrupts at once; before HELLO it closes.
fn accept(
    control: Control,
    state: State,
    queue: &mut Queue,
    request: Request,
) -> After<Result<Arrival, Refusal>>
    requires { Accepting control × (state ≡ state_in control) }
    ensures { Accepts control request queue.old queue.new result }
{
    let (state, opened) = match request {
        Request::Reset => {
            if state == State::Connected {
                let counted = changes::counted(control, state, control.opened);
                return After::new(changes::defunct(counted), Ok(Arrival::Closed));
            }
            (State::Interrupted, 0)
        }
        _ => (state, control.opened),
    };
    store(control.first, control.waiting, queue, request);
    After::new(
        changes::counted(control, state, opened),
        Ok(Arrival::Queued),
    )
}

// A request's numbers go to the place behind the last one that waits.
fn store(first: usize, waiting: usize, queue: &mut Queue, request: Request)
    requires { (first < 32) × (waiting < 32) }
    ensures { queue.new ≡ holding request (place first waiting) queue.old }
{
    let at = (first + waiting) % 32;
    let (n, qid) = names::numbers_of(request);
    queue.kinds[at] = request.tag();
    queue.counts[at] = n;
    queue.qids[at] = qid;
}
