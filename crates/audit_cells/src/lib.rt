// The audit's rules of the table alone, S1 and S2. Both are exact on every table that passes question 1.
#![tactic(auto)]

pub mod chain;
pub mod fields;
