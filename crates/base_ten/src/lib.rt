// Runs of bytes, and numbers in base ten read from bytes and written into a lent buffer.
#![tactic(auto)]

pub mod bytes;
pub mod numbers;
pub mod put;
