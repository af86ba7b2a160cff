// Rounds of up, step, down and step inside a program: bench/run.sh sets them against the same calls from C, bench/up_and_step.c. The input is the number
// of rounds, the output how many of their calls were done. Proved: it is safe and ends, and no call is counted that was not made.
#![tactic(auto)]

ghost use Rattle.std.specs.Prelude.{◌*◌, ◌≤◌};

use base_ten::bytes::split_once;
use base_ten::numbers::number;
use machine::{Queue, RowAnswer, Step, StepAnswer};
use std::io;

const CELLS: u16 = 64;

// One byte too many tells that the input is no number.
const INPUT_BYTES: usize = 12;

// The queue after some calls, and how many of them were done.
#[derive(Drop)]
struct Counted {
    queue: Queue,
    done: u64,
}

fn row_done(answer: RowAnswer) -> u64
    ensures { result ≤ 1 }
{
    match answer {
        Ok(_) => 1,
        Err(_) => 0,
    }
}

fn step_done(answer: StepAnswer) -> u64
    ensures { result ≤ 1 }
{
    match answer {
        Ok(Step::Applied { kind: _, freed: _ }) => 1,
        Ok(Step::Idle) => 0,
        Err(_) => 0,
    }
}

fn round(table: &mut [u16], queue: Queue, scratch: &mut [u16]) -> Counted
    ensures { result.done ≤ 4 }
{
    let up = store::up(table, queue, 1, 1);
    let first = store::step(table, up.queue, scratch);
    let down = store::down(table, first.queue, 1, 1);
    let second = store::step(table, down.queue, scratch);
    Counted {
        queue: second.queue,
        done: row_done(up.answer)
            + step_done(first.answer)
            + row_done(down.answer)
            + step_done(second.answer),
    }
}

// How many calls of so many rounds are done.
fn rounds(table: &mut [u16], queue: Queue, scratch: &mut [u16], n: u32) -> u64
    ensures { result ≤ 4 * n }
{
    let mut counted = Counted { queue, done: 0 };
    for i in 0..n {
        let round = round(table, counted.queue, scratch);
        counted.queue = round.queue;
        counted.done += round.done;
    }
    counted.done
}

// The same, in a store of one held cell.
fn run(table: &mut [u16], scratch: &mut [u16], n: u32) -> u64
    ensures { result ≤ 4 * n }
{
    let fresh = store::fresh(table, Queue::empty(), CELLS);
    let cons = store::cons(table, fresh.queue, 0, 0);
    let step = store::step(table, cons.queue, scratch);
    rounds(table, step.queue, scratch, n)
}

// The number of rounds, with or without a line feed.
fn asked(input: &[u8]) -> Option<u32> {
    match split_once(input, b'\n') {
        None => number(input, u32::MAX),
        Some((line, rest)) if rest.is_empty() => number(line, u32::MAX),
        Some(_) => None,
    }
}

// The table and the scratch have just the words that a store of so many cells needs.
fn answer<W: io::Write>(writer: &mut W, input: &[u8]) {
    let Some(n) = asked(input) else {
        let _ = writer.write_all(b"BAD\n");
        return;
    };
    let mut table = [0u16; cells::MOST_WORDS];
    let mut scratch = [0u16; cells::MOST_SCRATCH];
    let words = cells::words_for(CELLS);
    let marks = cells::scratch_for(CELLS);
    let done = run(&mut table[..words], &mut scratch[..marks], n);
    let _ = writeln!(writer, "{done}");
}

fn main(rt: HostRuntime) {
    let mut input = [0u8; INPUT_BYTES];
    let n = streams::read_full(&mut rt.stdin(), &mut input);
    answer(&mut rt.stdout(), &input[..n]);
}
