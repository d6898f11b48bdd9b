// The connection record of document 01: a struct of numbers that C and Rust hold as it is, what its numbers mean, and the standing rules.
#![tactic(auto)]

pub mod names; // names.rt: states and requests by their numbers
pub mod record; // record.rt: the record and its parts, and the fresh record
pub mod ring; // ring.rt: the requests that wait, around a ring of 32 places
pub mod rules; // rules.rt: the standing rules
mod scan; // scan.rt: one pass over those that wait
mod streams; // streams.rt: the numbers of the open streams
pub mod turn; // turn.rt: what becomes of a request whose turn comes
