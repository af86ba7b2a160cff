// A row call with a step after it, so that no packet waits between two of them.
ghost use Rattle.std.specs.Prelude.{◌≡◌};
ghost use Rattle.machine.specs.Answers.{call_of, row_reply};
ghost use Rattle.resting.specs.Settling.{word_of, Settling};

use machine::{Queue, RowAnswer, RowCall};

// The word replied; nil where the call is refused.
// Kept: 0 for a refused call, since `word_of` in specs/Settling of resting, by which `Settles` and `Fills` speak, says so.
fn word_of(answer: RowAnswer) -> u16
    ensures { result ≡ word_of (row_reply answer) }
{
    answer.unwrap_or(0)
}

pub fn settle(table: &mut [u16], queue: &mut Queue, scratch: &mut [u16], call: RowCall) -> u16
    ensures { Settling table.old queue.old scratch.old (call_of call) table.new queue.new scratch.new result }
{
    let reply = store::row(table, *queue, call);
    let stepped = store::step(table, reply.queue, scratch);
    *queue = stepped.queue;
    word_of(reply.answer)
}
