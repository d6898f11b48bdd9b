// Close: the connection ends. Document 01, "Connection record".
// The refusals come in this order: 24, 18.
ghost use Rattle.std.specs.Prelude.{◌≡◌};
ghost use Rattle.states.specs.Answers.{told_closing};
ghost use Rattle.record.specs.Record.{joined};
ghost use Rattle.record.specs.Calls.{close_of};
ghost use Rattle.steps.specs.Steps.{told_after};

use crate::after::After;
use crate::{changes, opening};
use record::record::{Control, Queue};
use refusal::Refusal;

// Ends the connection: nothing waits afterwards, and every further call is refused.
pub fn step(control: Control, streams: &[u64; 8], queue: &Queue) -> After<Result<(), Refusal>>
    ensures { told_after told_closing result streams.now queue.now ≡ close_of (joined control streams.now queue.now) }
{
    match opening::state_of(control, streams, queue) {
        Ok(_) => After::new(changes::defunct(control), Ok(())),
        Err(why) => After::new(control, Err(why)),
    }
}
