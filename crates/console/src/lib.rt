// A program's standard input and output: lines come in, operands stand in them, and digits go out.
#![tactic(auto)]

pub mod input;
pub mod operands;
pub mod output;
