// What the questions ask that have an answer on every store: of words and numbers, of the queue, and questions 1 and 2, which calls, collector and
// audit ask before anything else. The queue is lent, since by value it would be copied.
#![tactic(auto)]

ghost use Rattle.std.specs.Prelude.{◌≡◌, ◌≤◌, length};
ghost use Rattle.machine.specs.Words.{is_cell, is_legal, may_be_stored};
ghost use Rattle.machine.specs.Table.{header};
ghost use Rattle.machine.specs.Calls.{step, store, reads_nil};
ghost use Rattle.machine.specs.Questions.{first_no, early, in_range, long_enough, scratch_enough, cells_in_range, number_in_range, slot_empty};
ghost use Rattle.machine.specs.Answers.{asked_number, call_of};

use machine::{Asked, CLIP, FIRST_ATOM, Limited, MOST_CELLS, Queue, Refusal, RootCount, RowCall};

// Of c cells.
pub fn is_cell(c: u16, w: u16) -> bool
    ensures { result ≡ is_cell c w }
{
    1 <= w && w <= c
}

// Nil is 0, and so at most c.
pub fn is_legal(c: u16, w: u16) -> bool
    ensures { result ≡ is_legal c w }
{
    w <= c || FIRST_ATOM <= w
}

// Question 14 of a word: no atom, or an atom of a value below the clip.
pub fn may_be_stored(w: u16) -> bool
    ensures { result ≡ may_be_stored w }
{
    w < FIRST_ATOM || w - FIRST_ATOM < CLIP
}

// A read of nil, of which only questions 1 and 4 are asked.
pub fn reads_nil(call: RowCall) -> bool
    ensures { result ≡ reads_nil (call_of call) }
{
    match call {
        RowCall::Car(x) | RowCall::Cdr(x) => x == 0,
        _ => false,
    }
}

// Question 3 of n.
pub fn number_in_range(n: u16) -> bool
    ensures { result ≡ number_in_range n }
{
    1 <= n && n <= RootCount::CEILING
}

// Question 3 of C.
pub fn cells_in_range(c: u16) -> bool
    ensures { result ≡ cells_in_range c }
{
    1 <= c && c <= MOST_CELLS
}

// Question 7.
pub fn slot_empty(queue: &Queue) -> bool
    ensures { result ≡ slot_empty queue.now }
{
    queue.count < Queue::SLOTS
}

// Question 1 of a fresh.
pub fn long_enough(c: u16, table: &[u16]) -> bool
    ensures { result ≡ long_enough c table.now }
{
    cells::words_for(c) <= table.len()
}

// Question 1: C, both free ends, the queue's place and count are within range, and the table has the words for its cells.
pub fn in_range(table: &[u16], queue: &Queue) -> bool
    ensures { result ≡ in_range table.now queue.now }
{
    if table.len() < cells::words_for(1) {
        return false;
    }
    let c = cells::capacity_of(table);
    if c < 1 || MOST_CELLS < c {
        return false;
    }
    if c < cells::first_free(table) || c < cells::last_free(table) {
        return false;
    }
    if Queue::SLOTS <= queue.place || Queue::SLOTS < queue.count {
        return false;
    }
    cells::words_for(c) <= table.len()
}

// Question 2: the scratch has the words that a table of C cells needs.
pub fn scratch_enough(table: &[u16], scratch: &[u16]) -> bool
    requires { header ≤ length table.now }
    ensures { result ≡ scratch_enough table.now scratch.now }
{
    cells::scratch_for(cells::capacity_of(table)) <= scratch.len()
}

// Questions 1 and 2, of a step and an audit.
pub fn lent(table: &[u16], queue: &Queue, scratch: &[u16]) -> Asked
    ensures { asked_number result ≡ first_no (early (store table.now queue.now scratch.now) step) }
{
    if !in_range(table, queue) {
        return Err(Refusal::StoreOutOfRange);
    }
    if !scratch_enough(table, scratch) {
        return Err(Refusal::ScratchTooShort);
    }
    Ok(())
}
