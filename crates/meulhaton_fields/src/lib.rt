// What the layers read, as numbers: requests with their fields, and values. The library for C and Rust answers with these structs.
#![tactic(auto)]

pub mod fields; // fields.rt: the fields of requests
pub mod request; // request.rt: requests
pub mod value; // value.rt: values
