// The seat roster's declared types. What its calls do is the definition in specs/.
#![tactic(auto)]

use machine::{Queue, Refusal};

// The seats are 1 to this number.
pub const SEATS: u16 = 600;

// A roster call's answer: the reading, the number of seats, else 0; nothing, where there is no such seat; or a refusal.
pub type RosterAnswer = Result<Option<u16>, Refusal>;

// The answer, and the roster's queue and word afterwards.
#[derive(Clone, Copy)]
pub struct Replied {
    pub answer: RosterAnswer,
    pub queue: Queue,
    pub word: u16,
}
