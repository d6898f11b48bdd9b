// A report whose outcome names none, on the parts of a record: 24 and 18 come before the 19 that it gets for that.
ghost use Rattle.std.specs.Prelude.{◌≡◌};
ghost use Rattle.refusal.specs.Answer.{refused};
ghost use Rattle.refusal.specs.Numbers.{number_of};
ghost use Rattle.states.specs.Table.{unless_defunct};
ghost use Rattle.record.specs.Record.{joined, kept};
ghost use Rattle.record.specs.Calls.{called, nowhere};
ghost use Rattle.meulhaton_calls.specs.Calls.{unnamed_of, told_reply};

use crate::replies::Reply;
use record::record::{Control, Queue};
use refusal::Refusal;
use steps::after::After;
use steps::opening;

// What such a report is refused with.
fn refusal_of(control: Control, streams: &[u64; 8], queue: &Queue) -> Refusal
    ensures { record { connection = joined control streams.now queue.now; answer = refused (number_of result) 0 } ≡ called nowhere (joined control streams.now queue.now) (unless_defunct (kept (joined control streams.now queue.now)) (refused 19 0)) }
{
    match opening::state_of(control, streams, queue) {
        Ok(_) => Refusal::UnexpectedReport,
        Err(why) => why,
    }
}

pub fn step(control: Control, streams: &[u64; 8], queue: &Queue) -> After<Reply>
    ensures { told_reply result streams.now queue.now ≡ unnamed_of (joined control streams.now queue.now) }
{
    let why = refusal_of(control, streams, queue);
    After {
        control,
        answer: Reply::from(why),
    }
}
