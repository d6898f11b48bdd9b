// The four steps on the parts of a connection record: the control goes in and out by value, the streams and the queue are lent where they lie.
// `arrive` is lent the queue to store one request in it; the others cannot write it.
#![tactic(auto)]

pub mod after; // after.rt: what a step leaves of the control, and answers
pub mod arrive; // arrive.rt: a request comes
mod changes; // changes.rt: what the steps change in the control
pub mod close; // close.rt: the connection ends
pub mod opening; // opening.rt: what every call asks of a record first
mod outcome; // outcome.rt: what follows from the engine's outcome
pub mod report; // report.rt: the engine's outcome
mod streams; // streams.rt: the numbers of the open streams, changed
pub mod take; // take.rt: the turn of the first request
