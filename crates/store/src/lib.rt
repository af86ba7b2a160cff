// The store's calls, each with the one promise, for any words, numbers and buffers. The promise is machine's specs/Promise; a row call and a fresh
// are lent no scratch.
#![tactic(auto)]

ghost use Rattle.std.specs.Prelude.{[], length};
ghost use Rattle.machine.specs.Calls.{fresh, row, step, audit, read, car, cdr, cons, set_left, set_right, up, down, store};
ghost use Rattle.machine.specs.Answers.{call_of, fresh_reply, row_reply, step_reply, audit_answer_reply};
ghost use Rattle.machine.specs.Promise.{Promise, TextPut, TextHanded};

use calls::{FreshReply, RowReply};
use collector::Stepped;
use machine::{AuditAnswer, LengthAnswer, Queue, RowCall};

pub fn fresh(table: &mut [u16], queue: Queue, c: u16) -> FreshReply
    ensures { Promise (store table.old queue []) (fresh c) (fresh_reply result.answer) (store table.new result.queue []) }
{
    calls::fresh(table, queue, c)
}

pub fn car(table: &mut [u16], queue: Queue, x: u16) -> RowReply
    ensures { Promise (store table.old queue []) (row (car x)) (row_reply result.answer) (store table.new result.queue []) }
{
    calls::car(table, queue, x)
}

pub fn cdr(table: &mut [u16], queue: Queue, x: u16) -> RowReply
    ensures { Promise (store table.old queue []) (row (cdr x)) (row_reply result.answer) (store table.new result.queue []) }
{
    calls::cdr(table, queue, x)
}

pub fn cons(table: &mut [u16], queue: Queue, x: u16, y: u16) -> RowReply
    ensures { Promise (store table.old queue []) (row (cons x y)) (row_reply result.answer) (store table.new result.queue []) }
{
    calls::cons(table, queue, x, y)
}

pub fn set_left(table: &mut [u16], queue: Queue, x: u16, y: u16) -> RowReply
    ensures { Promise (store table.old queue []) (row (set_left x y)) (row_reply result.answer) (store table.new result.queue []) }
{
    calls::set_left(table, queue, x, y)
}

pub fn set_right(table: &mut [u16], queue: Queue, x: u16, y: u16) -> RowReply
    ensures { Promise (store table.old queue []) (row (set_right x y)) (row_reply result.answer) (store table.new result.queue []) }
{
    calls::set_right(table, queue, x, y)
}

pub fn up(table: &mut [u16], queue: Queue, x: u16, n: u16) -> RowReply
    ensures { Promise (store table.old queue []) (row (up x n)) (row_reply result.answer) (store table.new result.queue []) }
{
    calls::up(table, queue, x, n)
}

pub fn down(table: &mut [u16], queue: Queue, x: u16, n: u16) -> RowReply
    ensures { Promise (store table.old queue []) (row (down x n)) (row_reply result.answer) (store table.new result.queue []) }
{
    calls::down(table, queue, x, n)
}

// Any row call, as a value.
pub fn row(table: &mut [u16], queue: Queue, call: RowCall) -> RowReply
    ensures { Promise (store table.old queue []) (row (call_of call)) (row_reply result.answer) (store table.new result.queue []) }
{
    calls::row(table, queue, call)
}

pub fn step(table: &mut [u16], queue: Queue, scratch: &mut [u16]) -> Stepped
    ensures { Promise (store table.old queue scratch.old) step (step_reply result.answer) (store table.new result.queue scratch.new) }
{
    collector::step(table, queue, scratch)
}

// The table is lent for reading and the queue for good: neither can change.
pub fn audit(table: &[u16], queue: Queue, scratch: &mut [u16]) -> AuditAnswer
    ensures { Promise (store table.now queue scratch.old) audit (audit_answer_reply result) (store table.now queue scratch.new) }
{
    audit::audit_store(table, queue, scratch)
}

// A rule text is read: its cells are made by cons, and the reply is its word, of which one hold is gained.
pub fn read_text(table: &mut [u16], queue: Queue, text: &[u8]) -> RowReply
    ensures { Promise (store table.old queue []) (read text.now) (row_reply result.answer) (store table.new result.queue []) }
{
    reader::read_text(table, queue, text)
}

// The text of a word into the front of the buffer: its length, or the refusal.
pub fn put_text(table: &[u16], queue: Queue, word: u16, buffer: &mut [u8]) -> LengthAnswer
    ensures { TextPut (store table.now queue []) word buffer.old buffer.new result }
{
    writer::put_text(table, queue, word, buffer)
}

// The same: the part of the buffer that the text fills is handed back, an empty part where it is refused. `put_text` replies the refusal.
pub fn write_text<'b>(table: &[u16], queue: Queue, word: u16, buffer: &'b mut [u8]) -> &'b mut [u8]
    ensures { TextHanded (store table.now queue []) word (length buffer.old) buffer.entry.ref_ptr result.ref_ptr result.now }
{
    writer::write_text(table, queue, word, buffer)
}
