// The bytes of the text job: a line's fields, its first word and its numbers, and the lines of output.
#![tactic(auto)]

pub mod fields;
pub mod number;
pub mod numbers;
pub mod put;
pub mod word;
