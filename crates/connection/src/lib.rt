// The calls on a connection record that stays where it lies: each lends the record's streams and queue to the step and stores the control that
// the step leaves. Document 01, "Connection record": "One connection record stays where it lies and each call changes it there".
#![tactic(auto)]

ghost use Rattle.std.specs.Prelude.{◌≡◌};
ghost use Rattle.states.specs.Answers.{told_arrival, told_taken, told_reported, told_closing};
ghost use Rattle.record.specs.Calls.{arrive_of, take_of, report_of, close_of};

use record::record::Connection;
use refusal::Refusal;
use states::answers::{Answered, Arrival, Outcome, Taken};
use states::request::Request;

pub fn arrive(connection: &mut Connection, request: Request) -> Result<Arrival, Refusal>
    ensures { (connection.new ≡ (arrive_of connection.old request).connection) × (told_arrival result ≡ (arrive_of connection.old request).answer) }
{
    let after = steps::arrive::step(
        connection.control,
        &connection.streams,
        &mut connection.queue,
        request,
    );
    connection.control = after.control;
    after.answer
}

pub fn take(connection: &mut Connection) -> Result<Taken, Refusal>
    ensures { (connection.new ≡ (take_of connection.old).connection) × (told_taken result ≡ (take_of connection.old).answer) }
{
    let after = steps::take::step(connection.control, &connection.streams, &connection.queue);
    connection.control = after.control;
    after.answer
}

pub fn report(connection: &mut Connection, outcome: Outcome) -> Result<Answered, Refusal>
    ensures { (connection.new ≡ (report_of connection.old outcome).connection) × (told_reported result ≡ (report_of connection.old outcome).answer) }
{
    let after = steps::report::step(
        connection.control,
        &mut connection.streams,
        &connection.queue,
        outcome,
    );
    connection.control = after.control;
    after.answer
}

pub fn close(connection: &mut Connection) -> Result<(), Refusal>
    ensures { (connection.new ≡ (close_of connection.old).connection) × (told_closing result ≡ (close_of connection.old).answer) }
{
    let after = steps::close::step(connection.control, &connection.streams, &connection.queue);
    connection.control = after.control;
    after.answer
}
