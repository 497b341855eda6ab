// Numbers and parts of lent bytes: read, write, copy, fill and compare.
#![tactic(auto)]

pub mod numbers;
pub mod parts;
