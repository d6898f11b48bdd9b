// The library for C: an export for each function of `meulhaton` that C calls. Each calls it, and states its clauses again.
#![tactic(auto)]

pub mod calls; // calls.rt: the calls on a connection record
pub mod request; // request.rt: requests read
pub mod summary; // summary.rt: summaries packed
pub mod value; // value.rt: values read and packed
pub mod wire; // wire.rt: the handshake, frames and chunks
