// Requests: from a message's bytes to a request with its fields. Document 01, "Requests".
#![tactic(auto)]

mod checks; // checks.rt: what an entry may hold
mod extra; // extra.rt: what each request asks of its extra
pub mod read; // read.rt: from a message to the request
pub mod request; // request.rt: requests as they are read
