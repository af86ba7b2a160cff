// Writing rule text (document 02, A4), as the machine does it on every store.
#![tactic(auto)]

ghost use Rattle.std.specs.Prelude.{◌≡◌, length};
ghost use Rattle.machine.specs.Queue.{waiting};
ghost use Rattle.machine.specs.Facts.{Shape};
ghost use Rattle.machine.specs.Questions.{word_held, first_no};
ghost use Rattle.machine.specs.Answers.{asked_number};
ghost use Rattle.writer.specs.Front.{front};
ghost use Rattle.writer.specs.Writes.{answer_of, Puts, Writes};

use machine::{Asked, LengthAnswer, Queue, Refusal};
use printer::Unfit;

// Question 6: a cell is held; of any other word no hold is asked.
fn word_held(table: &[u16], queue: &Queue, word: u16) -> bool
    requires { Shape table.now queue.now }
    ensures { result ≡ word_held table.now (waiting queue.now) word }
{
    let Some(index) = counts::cell_index(table, word) else {
        return true;
    };
    let s = queue::waiting_changes(queue, queue.count, word);
    s.held.with(cells::count(table, index)).at_least(1)
}

// Questions 1, 4 and 6, which have an exact answer on every store.
fn asked(table: &[u16], queue: &Queue, word: u16) -> Asked
    ensures { asked_number result ≡ first_no (front table.now queue.now word) }
{
    if !questions::in_range(table, queue) {
        return Err(Refusal::StoreOutOfRange);
    }
    if !questions::is_legal(cells::capacity_of(table), word) {
        return Err(Refusal::IllegalWord);
    }
    if !word_held(table, queue, word) {
        return Err(Refusal::NotHeld);
    }
    Ok(())
}

// What was measured, as an answer.
fn answer_of(measured: Result<usize, Unfit>) -> LengthAnswer
    ensures { result ≡ answer_of measured }
{
    match measured {
        Ok(n) => Ok(n),
        Err(Unfit::TooDeep) => Err(Refusal::TooDeep),
        Err(Unfit::NoRoom) => Err(Refusal::BufferTooShort),
    }
}

// The word's text into the front of the buffer, or a refusal, and then the buffer stands.
pub fn put_text(table: &[u16], queue: Queue, word: u16, buffer: &mut [u8]) -> LengthAnswer
    ensures { Puts table.now queue word buffer.old buffer.new result }
{
    asked(table, &queue, word)?;
    answer_of(printer::put_text(table, word, buffer))
}

// The same, and the part of the buffer that holds the text is handed back; where it is refused, an empty one.
pub fn write_text<'b>(table: &[u16], queue: Queue, word: u16, buffer: &'b mut [u8]) -> &'b mut [u8]
    ensures { Writes table.now queue word (length buffer.old) buffer.entry.ref_ptr result.ref_ptr result.now }
{
    let answer = put_text(table, queue, word, buffer);
    match answer {
        Ok(n) => &mut buffer[..n],
        Err(_) => &mut buffer[..0],
    }
}
