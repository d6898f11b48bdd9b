// PackStream version 1, document 01, "Values": what the values of a message are, and where they lie in it.
#![tactic(auto)]

pub mod head; // head.rt: what a value is
mod keys; // keys.rt: keys, each compared with those before it
mod leaf; // leaf.rt: values that hold no other
pub mod read; // read.rt: messages, and the values in them
mod value; // value.rt: values inside each other
pub mod walk; // walk.rt: from value to value, in a message that was read
