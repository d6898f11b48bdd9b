// What every call asks of a record first: that it keeps the standing rules, and that the connection is not over.
ghost use Rattle.std.specs.Prelude.{◌≡◌, length};
ghost use Rattle.refusal.specs.Answer.{told};
ghost use Rattle.record.specs.Record.{joined};
ghost use Rattle.steps.specs.Opening.{opening_of};

use record::record::{Control, Queue};
use record::{names, rules};
use refusal::Refusal;
use states::state::State;

// The state that a call finds: 24 where the record breaks a rule, else 18 where it is DEFUNCT. Written into each call, so that the control is
// read where it lies: passed on, it would be copied, and the copy would wait for what the call before has stored.
#[inline(always)]
pub fn state_of(control: Control, streams: &[u64; 8], queue: &Queue) -> Result<State, Refusal>
    ensures told { told result ≡ opening_of (joined control streams.now queue.now) }
    ensures sized { length streams.now ≡ 8 }
{
    let keeps = rules::keeps_rules(
        control.state,
        control.in_flight,
        control.first,
        control.waiting,
        control.opened,
        control.next,
        control.accepted,
        control.sent,
        streams,
        queue,
    );
    if !keeps {
        return Err(Refusal::InvalidRecord);
    }
    let state = names::state_of(control.state);
    if state == State::Defunct {
        return Err(Refusal::ConnectionDefunct);
    }
    Ok(state)
}
