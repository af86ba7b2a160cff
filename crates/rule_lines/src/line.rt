// One line: its text is read into the store, written back, and let go.
ghost use Rattle.std.specs.Prelude.{◌+◌, ◌≤◌, length, take};
ghost use Rattle.base_ten.specs.Put.{Put};
ghost use Rattle.rule_lines.specs.Answers.{answer_of, answer_line, most_answer, room};
ghost use Rattle.rule_lines.specs.Stores.{PutsText, Answers, AnswersHeld};

use crate::hold::{CELLS, clean};
use base_ten::put::{put_counted, put_word};
use line_text::kept::keep;
use machine::Queue;

// The most bytes of an answer: a text has 5 bytes and 10 for each pair at most.
const ANSWER_BYTES: usize = 5 + 10 * CELLS as usize;

// And of its line.
pub const ROOM: usize = ANSWER_BYTES + 1;

// No more of a text than an answer can have.
fn put_front(out: &mut [u8], at: usize, part: &[u8]) -> usize
    requires { at + most_answer ≤ length out.old }
    ensures { Put out.old at (take most_answer part.now) out.new result }
{
    let size = part.len().min(ANSWER_BYTES);
    put_word(out, at, &part[..size])
}

// What is written of a word.
fn put_text(table: &[u16], queue: &Queue, word: u16, out: &mut [u8], at: usize) -> usize
    requires { at + most_answer ≤ length out.old }
    ensures { PutsText word table.now queue.now out.old at out.new result }
{
    let mut buffer = [0; ANSWER_BYTES];
    let part = store::write_text(table, *queue, word, &mut buffer);
    put_front(out, at, part)
}

// A text read is answered by what is written of its word, a text refused by the refusal; then the store is clean again.
fn answer(
    table: &mut [u16],
    queue: &mut Queue,
    scratch: &mut [u16],
    line: &[u8],
    out: &mut [u8],
    at: usize,
) -> usize
    requires { at + most_answer ≤ length out.old }
    ensures { Answers (answer_of line.now) most_answer table.old queue.old scratch.old out.old at
        table.new queue.new scratch.new out.new result }
{
    let reply = store::read_text(table, *queue, line);
    *queue = reply.queue;
    match reply.answer {
        Err(refusal) => put_counted(out, at, b"NO ", refusal.number()),
        Ok(word) => {
            let end = put_text(table, queue, word, out, at);
            clean(table, queue, scratch, word);
            end
        }
    }
}

// The answer, and its line feed.
fn answer_line(
    table: &mut [u16],
    queue: &mut Queue,
    scratch: &mut [u16],
    line: &[u8],
    out: &mut [u8],
    at: usize,
) -> usize
    requires { at + room ≤ length out.old }
    ensures { Answers (answer_line line.now) room table.old queue.old scratch.old out.old at
        table.new queue.new scratch.new out.new result }
{
    let end = answer(table, queue, scratch, line, out, at);
    out[end] = b'\n';
    end + 1
}

// A line that has begun with the bytes held and ends with this part. One that lies whole in the input is read where it lies.
pub fn answer_held(
    table: &mut [u16],
    queue: &mut Queue,
    scratch: &mut [u16],
    line: &mut [u8],
    held: usize,
    part: &[u8],
    out: &mut [u8],
    at: usize,
) -> usize
    requires { at + room ≤ length out.old }
    ensures { AnswersHeld line.old held part.now table.old queue.old scratch.old out.old at
        table.new queue.new scratch.new out.new result }
{
    if held == 0 {
        return answer_line(table, queue, scratch, part, out, at);
    }
    let size = keep(line, held, part);
    answer_line(table, queue, scratch, &line[..size], out, at)
}
