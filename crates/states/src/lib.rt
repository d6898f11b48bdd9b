// The states of a connection, the requests, the answers, and what becomes of a request by the state: document 01, "Connection record". The
// state table, their meaning, and what holds of every list of calls on it stand in specs/.
#![tactic(auto)]

pub mod answers; // answers.rt: what the calls answer
pub mod request; // request.rt: the requests, and tests of a request
pub mod state; // state.rt: the states, and tests of a state
pub mod turn; // turn.rt: what becomes of a request whose turn comes
