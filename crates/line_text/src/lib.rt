// The session's texts: from a line's bytes to what it asks for, and from an answer to an output line. Nothing here calls the store.
#![tactic(auto)]

pub mod kept;
pub mod parse;
pub mod texts;

use machine::RowCall;

// A line's call with its operands.
#[derive(Clone, Copy)]
pub enum Request {
    Fresh(u16),
    Row(RowCall),
    Step,
}

// What an output line says after its number.
#[derive(Clone, Copy)]
pub enum Verdict {
    Ok(u16),
    No(u16),
    Idle,
    Bad,
}
