// The store's declared types, in the forms that document 01 names. What the calls do is the definition in specs/.
#![tactic(auto)]

mod counters;

ghost use Rattle.std.specs.Prelude.{◌≡◌};
ghost use Rattle.machine.specs.Queue.{empty_queue};
ghost use Rattle.machine.specs.Answers.{refusal_number, rule_number};

pub use counters::{CellCount, Counter, Limited, NameCount, RootCount};

// The largest C.
pub const MOST_CELLS: u16 = 4096;

// The words from here on are atoms.
pub const FIRST_ATOM: u16 = 32768;

// The value at which the converter clips its readings: an atom of this value or more may not be stored.
pub const CLIP: u16 = 4095;

// The packet queue: 64 slots of a kind and three words, the first slot's place and the number of waiting packets.
#[derive(Clone, Copy)]
pub struct Queue {
    pub kinds: [u16; 64],
    pub a: [u16; 64],
    pub b: [u16; 64],
    pub c: [u16; 64],
    pub place: u16,
    pub count: u16,
}

impl Queue {
    pub const SLOTS: u16 = 64;

    pub fn empty() -> Queue
        ensures { result ≡ empty_queue }
    {
        Queue {
            kinds: [0; 64],
            a: [0; 64],
            b: [0; 64],
            c: [0; 64],
            place: 0,
            count: 0,
        }
    }
}

// The questions, by what a "no" says, each with the paper's number.
#[derive(Clone, Copy, PartialEq, Eq)]
pub enum Refusal {
    StoreOutOfRange = 1,
    ScratchTooShort = 2,
    NumberOutOfRange = 3,
    IllegalWord = 4,
    NotACell = 5,
    NotHeld = 6,
    QueueFull = 7,
    NoFreeCell = 8,
    HeldCountTooHigh = 9,
    TooManyPointers = 10,
    NotInNotation = 11,
    TooDeep = 12,
    BufferTooShort = 13,
    ClippedReading = 14,
    SeatOutOfRange = 15,
}

impl Refusal {
    pub fn number(self) -> u16
        ensures { result ≡ refusal_number self }
    {
        self as u16
    }
}

// What a call's questions say: "yes" to all, or the first "no".
pub type Asked = Result<(), Refusal>;

// A row program's call with its operands, as a value.
#[derive(Clone, Copy, PartialEq, Eq)]
pub enum RowCall {
    Car(u16),
    Cdr(u16),
    Cons(u16, u16),
    SetLeft(u16, u16),
    SetRight(u16, u16),
    Up(u16, u16),
    Down(u16, u16),
}

// A row call's answer: the new cell, the word read, the word detached, else 0; or a refusal.
pub type RowAnswer = Result<u16, Refusal>;

pub type FreshAnswer = Result<(), Refusal>;

// What an accepted step did: nothing, since no packet waits, or it applied a packet of this kind and freed so many cells.
#[derive(Clone, Copy, PartialEq, Eq)]
pub enum Step {
    Idle,
    Applied { kind: u16, freed: u16 },
}

pub type StepAnswer = Result<Step, Refusal>;

// The audit's rules S1 to S5, by what each is about.
#[derive(Clone, Copy, PartialEq, Eq)]
pub enum Rule {
    Cells = 1,
    FreeChain = 2,
    Packets = 3,
    Pointers = 4,
    Reached = 5,
}

impl Rule {
    pub fn number(self) -> u16
        ensures { result ≡ rule_number self }
    {
        self as u16
    }
}

// What an accepted audit found.
#[derive(Clone, Copy, PartialEq, Eq)]
pub enum Finding {
    Sound,
    Broken(Rule),
}

pub type AuditAnswer = Result<Finding, Refusal>;

// How many bytes the text of a word has, where it can be written, or the refusal.
pub type LengthAnswer = Result<usize, Refusal>;
