// Operations 11 to 14: a step on the parts of the record, which writes its answer. A call of `connection` does the same with the record as a
// whole: operation 18 makes those.
use crate::answers;
use record::record::Connection;
use states::answers::Outcome;
use states::request::Request;
use std::io;

pub fn arrive(rt: HostRuntime, connection: &mut Connection, request: Request) -> io::Result<()> {
    let after = steps::arrive::step(
        connection.control,
        &connection.streams,
        &mut connection.queue,
        request,
    );
    connection.control = after.control;
    answers::arrival(rt, after.answer)
}

pub fn take(rt: HostRuntime, connection: &mut Connection) -> io::Result<()> {
    let after = steps::take::step(connection.control, &connection.streams, &connection.queue);
    connection.control = after.control;
    answers::taken(rt, after.answer)
}

pub fn report(rt: HostRuntime, connection: &mut Connection, outcome: Outcome) -> io::Result<()> {
    let after = steps::report::step(
        connection.control,
        &mut connection.streams,
        &connection.queue,
        outcome,
    );
    connection.control = after.control;
    answers::reported(rt, after.answer)
}

pub fn close(rt: HostRuntime, connection: &mut Connection) -> io::Result<()> {
    let after = steps::close::step(connection.control, &connection.streams, &connection.queue);
    connection.control = after.control;
    answers::closing(rt, after.answer)
}
