// The calls on a connection record, for C: `meulhaton::calls`.
ghost use Rattle.std.specs.Prelude.{◌≡◌};
ghost use Rattle.record.specs.Record.{fresh as fresh_record};
ghost use Rattle.meulhaton_calls.specs.Calls.{call_on, arrive, take, report, close};

use meulhaton_calls::arguments::OutcomeImage;
use meulhaton_calls::replies::Reply;
use meulhaton_fields::request::RequestImage;
use record::record::Connection;

#[unsafe(no_mangle)]
pub extern "C" fn meulhaton_fresh() -> Connection
    ensures { result ≡ fresh_record }
{
    meulhaton::calls::meulhaton_fresh()
}

#[unsafe(no_mangle)]
pub extern "C" fn meulhaton_arrive(connection: &mut Connection, request: RequestImage) -> Reply
    ensures { (connection.new ≡ (call_on connection.old (arrive request)).connection) × (result ≡ (call_on connection.old (arrive request)).reply) }
{
    meulhaton::calls::meulhaton_arrive(connection, request)
}

#[unsafe(no_mangle)]
pub extern "C" fn meulhaton_take(connection: &mut Connection) -> Reply
    ensures { (connection.new ≡ (call_on connection.old take).connection) × (result ≡ (call_on connection.old take).reply) }
{
    meulhaton::calls::meulhaton_take(connection)
}

#[unsafe(no_mangle)]
pub extern "C" fn meulhaton_report(connection: &mut Connection, outcome: OutcomeImage) -> Reply
    ensures { (connection.new ≡ (call_on connection.old (report outcome)).connection) × (result ≡ (call_on connection.old (report outcome)).reply) }
{
    meulhaton::calls::meulhaton_report(connection, outcome)
}

#[unsafe(no_mangle)]
pub extern "C" fn meulhaton_close(connection: &mut Connection) -> Reply
    ensures { (connection.new ≡ (call_on connection.old close).connection) × (result ≡ (call_on connection.old close).reply) }
{
    meulhaton::calls::meulhaton_close(connection)
}
