// The opening of a connection: the versions of Bolt that are known, and the choice of one among a client's four proposals.
// Document 01, "Handshake".
#![tactic(auto)]

pub mod negotiation;
pub mod version;
