// A session of the bench trial: lines of hexadecimal come in, the handshake first and then one frame a line, and what is sent goes out as
// lines. Document 01, "Bench trial program". A session, a line and what is written are lent apart: the session alone lasts from line to line.
#![tactic(auto)]

pub mod line; // line.rt: one more line
pub mod phase; // phase.rt: a session, and how far it has come
mod receive; // receive.rt: what a line brings
mod reply; // reply.rt: what a line leads to, but for its end
mod serve; // serve.rt: serving a request, its summaries written as they come
mod write; // write.rt: lines of digits
