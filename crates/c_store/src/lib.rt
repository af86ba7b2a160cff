// The store's calls for programs in C, whose header is include/row_store.h; c_store_c exports them. Each has the store's one promise, on the same table,
// queue and scratch, for any words, numbers and buffers. A slice crosses as a pointer and a length, the queue as a pointer to its 258 words.
#![tactic(auto)]

ghost use Rattle.std.specs.Prelude.{[]};
ghost use Rattle.machine.specs.Calls.{fresh, row, step, audit, read, car, cdr, cons, set_left, set_right, up, down, store};
ghost use Rattle.machine.specs.Answers.{call_of};
ghost use Rattle.c_layout.specs.Queues.{queue_in};
ghost use Rattle.c_store.specs.Told.{PromiseTold, TextTold};

use c_layout::queues::{QUEUE_WORDS, load, save};
use c_layout::{Reply, audit_told, fresh_told, length_told, row_told, step_told};
use machine::RowCall;

// Any row call: its queue is loaded, the call made, the queue saved.
// Kept: (d) these three lines stand four times: over a closure each would name table, queue and scratch, `done.queue` and the reply once more.
fn called(table: &mut [u16], queue: &mut [u16; QUEUE_WORDS], call: RowCall) -> Reply
    ensures { PromiseTold (store table.old (queue_in queue.old) []) (row (call_of call)) result (store table.new (queue_in queue.new) []) }
{
    let appended = store::row(table, load(*queue), call);
    save(queue, appended.queue);
    row_told(appended.answer)
}

pub fn row_fresh(table: &mut [u16], queue: &mut [u16; QUEUE_WORDS], c: u16) -> Reply
    ensures { PromiseTold (store table.old (queue_in queue.old) []) (fresh c) result (store table.new (queue_in queue.new) []) }
{
    let begun = store::fresh(table, load(*queue), c);
    save(queue, begun.queue);
    fresh_told(begun.answer)
}

pub fn row_car(table: &mut [u16], queue: &mut [u16; QUEUE_WORDS], x: u16) -> Reply
    ensures { PromiseTold (store table.old (queue_in queue.old) []) (row (car x)) result (store table.new (queue_in queue.new) []) }
{
    called(table, queue, RowCall::Car(x))
}

pub fn row_cdr(table: &mut [u16], queue: &mut [u16; QUEUE_WORDS], x: u16) -> Reply
    ensures { PromiseTold (store table.old (queue_in queue.old) []) (row (cdr x)) result (store table.new (queue_in queue.new) []) }
{
    called(table, queue, RowCall::Cdr(x))
}

pub fn row_cons(table: &mut [u16], queue: &mut [u16; QUEUE_WORDS], x: u16, y: u16) -> Reply
    ensures { PromiseTold (store table.old (queue_in queue.old) []) (row (cons x y)) result (store table.new (queue_in queue.new) []) }
{
    called(table, queue, RowCall::Cons(x, y))
}

pub fn row_set_left(table: &mut [u16], queue: &mut [u16; QUEUE_WORDS], x: u16, y: u16) -> Reply
    ensures { PromiseTold (store table.old (queue_in queue.old) []) (row (set_left x y)) result (store table.new (queue_in queue.new) []) }
{
    called(table, queue, RowCall::SetLeft(x, y))
}

pub fn row_set_right(table: &mut [u16], queue: &mut [u16; QUEUE_WORDS], x: u16, y: u16) -> Reply
    ensures { PromiseTold (store table.old (queue_in queue.old) []) (row (set_right x y)) result (store table.new (queue_in queue.new) []) }
{
    called(table, queue, RowCall::SetRight(x, y))
}

pub fn row_up(table: &mut [u16], queue: &mut [u16; QUEUE_WORDS], x: u16, n: u16) -> Reply
    ensures { PromiseTold (store table.old (queue_in queue.old) []) (row (up x n)) result (store table.new (queue_in queue.new) []) }
{
    called(table, queue, RowCall::Up(x, n))
}

pub fn row_down(table: &mut [u16], queue: &mut [u16; QUEUE_WORDS], x: u16, n: u16) -> Reply
    ensures { PromiseTold (store table.old (queue_in queue.old) []) (row (down x n)) result (store table.new (queue_in queue.new) []) }
{
    called(table, queue, RowCall::Down(x, n))
}

pub fn row_step(table: &mut [u16], queue: &mut [u16; QUEUE_WORDS], scratch: &mut [u16]) -> Reply
    ensures { PromiseTold (store table.old (queue_in queue.old) scratch.old) step result (store table.new (queue_in queue.new) scratch.new) }
{
    let stepped = store::step(table, load(*queue), scratch);
    save(queue, stepped.queue);
    step_told(stepped.answer)
}

// Table and queue are lent for reading: neither can change.
pub fn row_audit(table: &[u16], queue: &[u16; QUEUE_WORDS], scratch: &mut [u16]) -> Reply
    ensures { PromiseTold (store table.now (queue_in queue.now) scratch.old) audit result (store table.now (queue_in queue.now) scratch.new) }
{
    audit_told(store::audit(table, load(*queue), scratch))
}

pub fn row_read_text(table: &mut [u16], queue: &mut [u16; QUEUE_WORDS], text: &[u8]) -> Reply
    ensures { PromiseTold (store table.old (queue_in queue.old) []) (read text.now) result (store table.new (queue_in queue.new) []) }
{
    let filled = store::read_text(table, load(*queue), text);
    save(queue, filled.queue);
    row_told(filled.answer)
}

pub fn row_write_text(
    table: &[u16],
    queue: &[u16; QUEUE_WORDS],
    word: u16,
    buffer: &mut [u8],
) -> Reply
    ensures { TextTold (store table.now (queue_in queue.now) []) word buffer.old buffer.new result }
{
    length_told(store::put_text(table, load(*queue), word, buffer))
}
