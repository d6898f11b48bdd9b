// The calls on a connection record in numbers: their arguments, and what they answer.
#![tactic(auto)]

pub mod arguments; // arguments.rt: what the arguments name
pub mod replies; // replies.rt: what the calls answer
pub mod summary; // summary.rt: summaries by their numbers
pub mod unnamed; // unnamed.rt: a report whose outcome names none
