// The library for C and Rust: the layers' public functions on numbers and byte slices. No enum crosses, so each answer is a struct of
// numbers; its contract says what the layer's contract says, through the same definitions. The connection record crosses as it is.
#![tactic(auto)]

pub mod calls; // calls.rt: the calls on a connection record
pub mod request; // request.rt: requests read
pub mod summary; // summary.rt: summaries packed
pub mod value; // value.rt: values read and packed
pub mod wire; // wire.rt: the handshake, frames and chunks
