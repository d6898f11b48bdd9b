// What goes to a connection, and what comes from it: requests as they arrive, and summaries as bytes. Document 01, "Connection record".
#![tactic(auto)]

pub mod arrival; // arrival.rt: what of a request the connection is told
pub mod summary; // summary.rt: summaries packed
