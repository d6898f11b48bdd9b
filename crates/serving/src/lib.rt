// Serving: take and report, with plain success, by turns, and what a refusal leaves. The record's control goes in and out by value; its streams
// and its queue are lent where they lie.
#![tactic(auto)]

ghost use Rattle.std.specs.Prelude.{◌≡◌};
ghost use Rattle.refusal.specs.Numbers.{number_of};
ghost use Rattle.states.specs.declared.answers.Outcome.TheVariants.{Success};
ghost use Rattle.states.specs.Answers.{told_taken};
ghost use Rattle.record.specs.Record.{joined};
ghost use Rattle.record.specs.Calls.{report_of};
ghost use Rattle.steps.specs.Steps.{told_after};
ghost use Rattle.serving.specs.Serving.{after_refusal, turn_of};

use record::record::{Control, Queue};
use refusal::Refusal;
use states::answers::{Outcome, Taken};
use steps::after::After;
use steps::{close, report, take};

// Why serving ended, where no call was refused: nothing is left to do until the next request, or the connection closed.
#[derive(Clone, Copy, Debug, PartialEq, Eq)]
pub enum Ending {
    Idle,
    Closed,
}

// The control after a refusal, after which the caller closes or not.
#[tactic(auto, unfolding(crate::specs::Serving::after_refusal))]
pub fn after_refusal(control: Control, streams: &[u64; 8], queue: &Queue, why: Refusal) -> Control
    ensures { joined result streams.now queue.now ≡ after_refusal (number_of why) (joined control streams.now queue.now) }
{
    if why.closes() {
        return close::step(control, streams, queue).control;
    }
    control
}

// The report of plain success on the request in flight, as the answer of the take that handed it over.
fn succeed(control: Control, streams: &mut [u64; 8], queue: &Queue) -> After<Result<Taken, Refusal>>
    ensures { told_after told_taken result streams.new queue.now ≡ report_of (joined control streams.old queue.now) Success }
{
    let reported = report::step(control, streams, queue, Outcome::Success);
    After {
        control: reported.control,
        answer: reported.answer.map(Taken::Answered),
    }
}

// Takes; what is handed to the engine succeeds at once.
#[tactic(auto, unfolding(crate::specs::Serving::turn_of))]
pub fn turn(
    control: Control,
    streams: &mut [u64; 8],
    queue: &Queue,
) -> After<Result<Taken, Refusal>>
    ensures { told_after told_taken result streams.new queue.now ≡ turn_of (joined control streams.old queue.now) }
{
    let taken = take::step(control, streams, queue);
    match taken.answer {
        Ok(Taken::Handed { .. }) => succeed(taken.control, streams, queue),
        Ok(Taken::Idle) | Ok(Taken::Closed) | Ok(Taken::Answered(_)) | Err(_) => taken,
    }
}
