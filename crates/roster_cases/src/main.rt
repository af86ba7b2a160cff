// The roster's calls over a list of stores and calls, with every reply and what is to be seen of the store after it: the expected output is the reference's.
#![tactic(auto)]

mod asking;
mod figures;

use asking::asked;
use figures::write_figures;
use machine::{Queue, Refusal};
use readings::{Replied, RosterAnswer};
use state_lines::{Call, Numbers, Runs, SCRATCH, Store};
use std::io;

// The calls with their operands.
#[derive(Clone, Copy)]
pub enum RosterCall {
    Fresh(u16),
    Set { seat: u16, reading: u16 },
    LookUp(u16),
    Remove(u16),
    Count(u16),
}

// A code that no call has is refused.
impl TryFrom<Call> for RosterCall {
    type Error = Refusal;

    fn try_from(call: Call) -> Result<RosterCall, Refusal> {
        let Call { code, p, q, .. } = call;
        match code {
            0 => Ok(RosterCall::Fresh(p)),
            1 => Ok(RosterCall::Set {
                seat: p,
                reading: q,
            }),
            2 => Ok(RosterCall::LookUp(p)),
            3 => Ok(RosterCall::Remove(p)),
            4 => Ok(RosterCall::Count(p)),
            _ => Err(Refusal::NumberOutOfRange),
        }
    }
}

// Where fresh is accepted the roster's word becomes nil.
fn fresh(table: &mut [u16], queue: Queue, word: u16, c: u16) -> Replied {
    let done = store::fresh(table, queue, c);
    let queue = done.queue;
    match done.answer {
        Ok(()) => Replied {
            answer: Ok(Some(0)),
            queue,
            word: 0,
        },
        Err(refusal) => Replied {
            answer: Err(refusal),
            queue,
            word,
        },
    }
}

fn make(
    call: RosterCall,
    table: &mut [u16],
    queue: Queue,
    word: u16,
    scratch: &mut [u16],
) -> Replied {
    match call {
        RosterCall::Fresh(c) => fresh(table, queue, word, c),
        RosterCall::Set { seat, reading } => {
            roster::set(table, queue, word, scratch, seat, reading)
        }
        RosterCall::LookUp(seat) => roster::look_up(table, queue, word, scratch, seat),
        RosterCall::Remove(seat) => roster::remove(table, queue, word, scratch, seat),
        RosterCall::Count(threshold) => roster::count(table, queue, word, scratch, threshold),
    }
}

// Makes the call that the numbers are on the store and the roster's word.
fn take(call: Call, store: &mut Store, word: &mut u16) -> RosterAnswer {
    let before = *word;
    match RosterCall::try_from(call) {
        Ok(call) => {
            let (answer, after) = store.call(|table, queue, scratch| {
                let replied = make(call, table, queue, before, scratch);
                ((replied.answer, replied.word), replied.queue)
            });
            *word = after;
            answer
        }
        Err(refusal) => Err(refusal),
    }
}

fn write_answer<W: io::Write>(writer: &mut W, answer: RosterAnswer) {
    let _ = match answer {
        Ok(Some(value)) => writeln!(writer, " OK {value}"),
        Ok(None) => writeln!(writer, " ABSENT"),
        Err(refusal) => writeln!(writer, " NO {}", refusal.number()),
    };
}

// Every refusal but that for want of a free cell changes nothing.
fn changes_nothing(answer: RosterAnswer) -> bool {
    matches!(answer, Err(refusal) if refusal != Refusal::NoFreeCell)
}

// A call that the papers decide. Whether table, queue and scratch are as before is told by the checksum of the store, the same for the same words and hardly
// ever for others; the roster's word is compared itself.
fn decided<W: io::Write>(
    writer: &mut W,
    call: Call,
    store: &mut Store,
    word: &mut u16,
    audit_scratch: &mut [u16],
) {
    let sum = store.checksum();
    let held = *word;
    let answer = take(call, store, word);
    let _ = write!(writer, "R {call}");
    write_answer(writer, answer);
    if changes_nothing(answer) {
        let same = sum == store.checksum() && held == *word;
        let _ = writer.write_all(if same { b"SAME\n" } else { b"MOVED\n" });
    } else {
        write_figures(writer, store, *word, audit_scratch);
        let _ = writeln!(writer, "S {}", Runs(store.scratch()));
    }
}

// What may come of a call that the papers don't decide: of a fresh anything; where one of the early questions refuses the call, that refusal; past them any
// value, absent, and 8 of a set.
fn is_allowed(call: RosterCall, early: Result<(), Refusal>, answer: RosterAnswer) -> bool {
    match call {
        RosterCall::Fresh(_) => true,
        _ => match (early, answer) {
            (Ok(()), Err(refusal)) => {
                matches!(call, RosterCall::Set { .. }) && refusal == Refusal::NoFreeCell
            }
            (Ok(()), _) => true,
            (Err(early), Err(refusal)) => refusal == early,
            (Err(_), _) => false,
        },
    }
}

// A call that the papers don't decide. An answer that may not come of it is written as it is, so that the output differs from the reference's.
fn undecided<W: io::Write>(writer: &mut W, call: Call, store: &mut Store, word: &mut u16) {
    let _ = write!(writer, "U {call}");
    let early = RosterCall::try_from(call).map(|call| (
        call,
        asked(store.table(), store.queue(), store.scratch(), call),
    ));
    let answer = take(call, store, word);
    match early {
        Ok((call, early)) if is_allowed(call, early, answer) => {
            let _ = writeln!(writer, " UNDECIDED");
        }
        _ => write_answer(writer, answer),
    }
}

// A line: a call, the roster's word, or what changes the store; a new store's word is nil.
fn take_line<W: io::Write>(
    writer: &mut W,
    letter: u8,
    numbers: &[u16],
    store: &mut Store,
    word: &mut u16,
    audit_scratch: &mut [u16],
) {
    match letter {
        b'R' => decided(writer, Call::from(numbers), store, word, audit_scratch),
        b'U' => undecided(writer, Call::from(numbers), store, word),
        b'V' => *word = numbers.first().copied().unwrap_or(0),
        b'T' => {
            store.change(letter, numbers);
            *word = 0;
        }
        _ => store.change(letter, numbers),
    }
}

fn run<W: io::Write>(writer: &mut W, input: &[u8]) {
    let mut numbers = Numbers::new();
    let mut store = Store::new();
    let mut word = 0;
    let mut audit_scratch = [0; SCRATCH];
    let mut rest = input;
    while let Some((letter, next)) = numbers.read(rest) {
        let line = numbers.as_slice();
        take_line(
            writer,
            letter,
            line,
            &mut store,
            &mut word,
            &mut audit_scratch,
        );
        rest = next;
    }
}

fn main(rt: HostRuntime) {
    let mut input = state_lines::input_array();
    let n = streams::read_full(&mut rt.stdin(), &mut input);
    run(&mut rt.stdout(), &input[..n]);
}
