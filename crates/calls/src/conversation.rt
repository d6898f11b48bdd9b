// A conversation on one record, which lies in one place from the first call to the last.
ghost use Rattle.std.specs.Prelude.{◌≡◌};
ghost use Rattle.calls.specs.Private.Conversation.{conversation, told};

use record::record::Connection;
use refusal::Refusal;
use states::answers::{Answered, Arrival, Outcome, Taken};
use states::request::Request;

// What the calls answered, in their order.
#[derive(Clone, Copy, Debug, PartialEq, Eq)]
pub struct Heard {
    pub arrival: Result<Arrival, Refusal>,
    pub taken: Result<Taken, Refusal>,
    pub reported: Result<Answered, Refusal>,
    pub second_arrival: Result<Arrival, Refusal>,
    pub second_taken: Result<Taken, Refusal>,
    pub second_reported: Result<Answered, Refusal>,
    pub closing: Result<(), Refusal>,
}

// Two requests, each with its turn and the engine's outcome, and the end of the connection.
pub fn hold(
    start: Connection,
    first: Request,
    outcome: Outcome,
    second: Request,
    ending: Outcome,
) -> Heard
    ensures { told result ≡ conversation start first outcome second ending }
{
    let mut connection = start;
    let arrival = connection::arrive(&mut connection, first);
    let taken = connection::take(&mut connection);
    let reported = connection::report(&mut connection, outcome);
    let second_arrival = connection::arrive(&mut connection, second);
    let second_taken = connection::take(&mut connection);
    let second_reported = connection::report(&mut connection, ending);
    let closing = connection::close(&mut connection);
    Heard {
        arrival,
        taken,
        reported,
        second_arrival,
        second_taken,
        second_reported,
        closing,
    }
}
