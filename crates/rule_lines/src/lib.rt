// Rule texts tried line by line on a store of their own: bytes in, bytes out. The definition of what comes out is specs/Answers.antt.
#![tactic(auto)]

mod hold;
mod line;

ghost use Rattle.std.specs.Prelude.{◌≡◌};
ghost use Rattle.rule_lines.specs.Progress.{state, Starts, Feeds, FinishesWithRoom};

use base_ten::bytes::next_line_feed;
use hold::freshened;
use line::{ROOM, answer_held};
use line_text::kept::keep;
use machine::Queue;
use serving::Fed;

// The most bytes of a text.
const TEXT_BYTES: usize = 4096;

// The bytes to lend for a line. One byte too many tells that a line is too long.
pub const LINE_BYTES: usize = TEXT_BYTES + 1;

// What is carried from one part of the input to the next: how many bytes of the present line are held, and the queue.
#[derive(Clone, Copy)]
pub struct Rules {
    pub held: usize,
    pub queue: Queue,
}

impl Rules {
    pub fn start(table: &mut [u16]) -> Rules
        ensures { Starts table.old table.new result }
    {
        Rules {
            held: 0,
            queue: freshened(table),
        }
    }
}

// Takes the input as far as the buffer has room for one more answer. Each whole line is answered, and what follows the last line feed is held.
pub fn feed(
    rules: Rules,
    table: &mut [u16],
    scratch: &mut [u16],
    line: &mut [u8],
    input: &[u8],
    out: &mut [u8],
) -> Fed<Rules>
    ensures { Feeds (state rules table.old scratch.old line.old) input.now
        (state result.state table.new scratch.new line.new) result.taken result.written out.new }
{
    let mut present = rules;
    let mut taken = 0;
    let mut written = 0;
    let mut next = next_line_feed(input, taken);
    // Kept: a `for` over lines is no plainer, since where the loop stops is told as the bytes taken.
    while next < input.len() {
        if out.len() - written < ROOM {
            return Fed {
                state: present,
                taken,
                written,
            };
        }
        written = answer_held(
            table,
            &mut present.queue,
            scratch,
            line,
            present.held,
            &input[taken..next],
            out,
            written,
        );
        present.held = 0;
        taken = next + 1;
        next = next_line_feed(input, taken);
    }
    let held = present.held;
    present.held = keep(line, held, &input[taken..]);
    Fed {
        state: present,
        taken: input.len(),
        written,
    }
}

// At the end of the input a last line without its line feed is answered, and how much was written is told. Where the buffer has no room for its answer
// nothing is done.
pub fn finish(
    rules: Rules,
    table: &mut [u16],
    scratch: &mut [u16],
    line: &mut [u8],
    out: &mut [u8],
) -> Option<usize>
    ensures { FinishesWithRoom (state rules table.old scratch.old line.old) out.old
        result (state rules table.new scratch.new line.new) out.new }
{
    if rules.held == 0 {
        return Some(0);
    }
    if out.len() < ROOM {
        return None;
    }
    let mut queue = rules.queue;
    let written = answer_held(table, &mut queue, scratch, line, rules.held, b"", out, 0);
    Some(written)
}
