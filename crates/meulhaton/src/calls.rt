// The calls on a connection record that the caller owns and that stays where it lies: `connection`'s, with requests, outcomes and answers as
// numbers. Each call checks the record before anything else: 24 where it breaks a standing rule. A refused call leaves the record as it was.
ghost use Rattle.std.specs.Prelude.{◌≡◌};
ghost use Rattle.record.specs.Record.{fresh as fresh_record};
ghost use Rattle.record.specs.Calls.{report_of};
ghost use Rattle.meulhaton_calls.specs.Calls.{outcome_of, in_numbers, unnamed_of, call_on, arrive, take, report, close};

use meulhaton_calls::arguments::OutcomeImage;
use meulhaton_calls::replies::Reply;
use meulhaton_calls::{arguments, unnamed};
use meulhaton_fields::request::RequestImage;
use record::record::Connection;

// A fresh record.
pub fn meulhaton_fresh() -> Connection
    ensures { result ≡ fresh_record }
{
    record::record::fresh()
}

// A request has come.
pub fn meulhaton_arrive(connection: &mut Connection, request: RequestImage) -> Reply
    ensures { (connection.new ≡ (call_on connection.old (arrive request)).connection) × (result ≡ (call_on connection.old (arrive request)).reply) }
{
    Reply::from(connection::arrive(connection, arguments::arriving(request)))
}

// The turn of the first request.
pub fn meulhaton_take(connection: &mut Connection) -> Reply
    ensures { (connection.new ≡ (call_on connection.old take).connection) × (result ≡ (call_on connection.old take).reply) }
{
    Reply::from(connection::take(connection))
}

// An outcome that is named.
fn report_named(connection: &mut Connection, outcome: OutcomeImage) -> Reply
    ensures { (connection.new ≡ (in_numbers (report_of connection.old (outcome_of outcome.number))).connection) × (result ≡ (in_numbers (report_of connection.old (outcome_of outcome.number))).reply) }
{
    Reply::from(connection::report(connection, arguments::outcome_of(outcome)))
}

// An outcome whose number names none.
fn report_unnamed(connection: &mut Connection) -> Reply
    ensures { (connection.new ≡ (unnamed_of connection.old).connection) × (result ≡ (unnamed_of connection.old).reply) }
{
    let after = unnamed::step(connection.control, &connection.streams, &connection.queue);
    connection.control = after.control;
    after.answer
}

// The engine's outcome.
pub fn meulhaton_report(connection: &mut Connection, outcome: OutcomeImage) -> Reply
    ensures { (connection.new ≡ (call_on connection.old (report outcome)).connection) × (result ≡ (call_on connection.old (report outcome)).reply) }
{
    if arguments::is_outcome(outcome) {
        return report_named(connection, outcome);
    }
    report_unnamed(connection)
}

// The connection ends.
pub fn meulhaton_close(connection: &mut Connection) -> Reply
    ensures { (connection.new ≡ (call_on connection.old close).connection) × (result ≡ (call_on connection.old close).reply) }
{
    Reply::from(connection::close(connection))
}
