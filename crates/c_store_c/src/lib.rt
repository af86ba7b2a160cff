// The twelve calls as C finds them under the names of include/row_store.h: a static library over c_store, since a crate is a library for Rattle or one for C,
// and not both. Each call is c_store's, with its clauses. A slice crosses as a pointer and a length, the queue as a pointer to its 258 words.
#![tactic(auto)]

ghost use Rattle.std.specs.Prelude.{[]};
ghost use Rattle.machine.specs.Calls.{fresh, row, step, audit, read, car, cdr, cons, set_left, set_right, up, down, store};
ghost use Rattle.c_layout.specs.Queues.{queue_in};
ghost use Rattle.c_store.specs.Told.{PromiseTold, TextTold};

use c_layout::Reply;
use c_layout::queues::QUEUE_WORDS;

#[unsafe(no_mangle)]
pub extern "C" fn row_fresh(table: &mut [u16], queue: &mut [u16; QUEUE_WORDS], c: u16) -> Reply
    ensures { PromiseTold (store table.old (queue_in queue.old) []) (fresh c) result (store table.new (queue_in queue.new) []) }
{
    c_store::row_fresh(table, queue, c)
}

#[unsafe(no_mangle)]
pub extern "C" fn row_car(table: &mut [u16], queue: &mut [u16; QUEUE_WORDS], x: u16) -> Reply
    ensures { PromiseTold (store table.old (queue_in queue.old) []) (row (car x)) result (store table.new (queue_in queue.new) []) }
{
    c_store::row_car(table, queue, x)
}

#[unsafe(no_mangle)]
pub extern "C" fn row_cdr(table: &mut [u16], queue: &mut [u16; QUEUE_WORDS], x: u16) -> Reply
    ensures { PromiseTold (store table.old (queue_in queue.old) []) (row (cdr x)) result (store table.new (queue_in queue.new) []) }
{
    c_store::row_cdr(table, queue, x)
}

#[unsafe(no_mangle)]
pub extern "C" fn row_cons(
    table: &mut [u16],
    queue: &mut [u16; QUEUE_WORDS],
    x: u16,
    y: u16,
) -> Reply
    ensures { PromiseTold (store table.old (queue_in queue.old) []) (row (cons x y)) result (store table.new (queue_in queue.new) []) }
{
    c_store::row_cons(table, queue, x, y)
}

#[unsafe(no_mangle)]
pub extern "C" fn row_set_left(
    table: &mut [u16],
    queue: &mut [u16; QUEUE_WORDS],
    x: u16,
    y: u16,
) -> Reply
    ensures { PromiseTold (store table.old (queue_in queue.old) []) (row (set_left x y)) result (store table.new (queue_in queue.new) []) }
{
    c_store::row_set_left(table, queue, x, y)
}

#[unsafe(no_mangle)]
pub extern "C" fn row_set_right(
    table: &mut [u16],
    queue: &mut [u16; QUEUE_WORDS],
    x: u16,
    y: u16,
) -> Reply
    ensures { PromiseTold (store table.old (queue_in queue.old) []) (row (set_right x y)) result (store table.new (queue_in queue.new) []) }
{
    c_store::row_set_right(table, queue, x, y)
}

#[unsafe(no_mangle)]
pub extern "C" fn row_up(table: &mut [u16], queue: &mut [u16; QUEUE_WORDS], x: u16, n: u16) -> Reply
    ensures { PromiseTold (store table.old (queue_in queue.old) []) (row (up x n)) result (store table.new (queue_in queue.new) []) }
{
    c_store::row_up(table, queue, x, n)
}

#[unsafe(no_mangle)]
pub extern "C" fn row_down(
    table: &mut [u16],
    queue: &mut [u16; QUEUE_WORDS],
    x: u16,
    n: u16,
) -> Reply
    ensures { PromiseTold (store table.old (queue_in queue.old) []) (row (down x n)) result (store table.new (queue_in queue.new) []) }
{
    c_store::row_down(table, queue, x, n)
}

#[unsafe(no_mangle)]
pub extern "C" fn row_step(
    table: &mut [u16],
    queue: &mut [u16; QUEUE_WORDS],
    scratch: &mut [u16],
) -> Reply
    ensures { PromiseTold (store table.old (queue_in queue.old) scratch.old) step result (store table.new (queue_in queue.new) scratch.new) }
{
    c_store::row_step(table, queue, scratch)
}

// Table and queue are lent for reading: neither can change.
#[unsafe(no_mangle)]
pub extern "C" fn row_audit(table: &[u16], queue: &[u16; QUEUE_WORDS], scratch: &mut [u16]) -> Reply
    ensures { PromiseTold (store table.now (queue_in queue.now) scratch.old) audit result (store table.now (queue_in queue.now) scratch.new) }
{
    c_store::row_audit(table, queue, scratch)
}

#[unsafe(no_mangle)]
pub extern "C" fn row_read_text(
    table: &mut [u16],
    queue: &mut [u16; QUEUE_WORDS],
    text: &[u8],
) -> Reply
    ensures { PromiseTold (store table.old (queue_in queue.old) []) (read text.now) result (store table.new (queue_in queue.new) []) }
{
    c_store::row_read_text(table, queue, text)
}

#[unsafe(no_mangle)]
pub extern "C" fn row_write_text(
    table: &[u16],
    queue: &[u16; QUEUE_WORDS],
    word: u16,
    buffer: &mut [u8],
) -> Reply
    ensures { TextTold (store table.now (queue_in queue.now) []) word buffer.old buffer.new result }
{
    c_store::row_write_text(table, queue, word, buffer)
}
