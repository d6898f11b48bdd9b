// Messages on the wire: a message travels as chunks, each a 16-bit size and that many bytes, and ends with a chunk of size zero.
// Document 01, "Frames".
#![tactic(auto)]

pub mod reader;
pub mod writer;
