// PackStream version 1, document 01, "Values": markers, and how far the value behind one reaches.
#![tactic(auto)]

pub mod extent; // extent.rt: where a value's content lies
pub mod kind; // kind.rt: the kinds of value
mod marker; // marker.rt: what a marker stands for
