// The store around a line: made fresh, and made clean again.
ghost use Rattle.rule_lines.specs.Stores.{Drains, GivesUp, Cleans, Freshens};

use machine::{FIRST_ATOM, Queue};

// The cells of the store, as many as its queue has slots.
pub const CELLS: u16 = 64;

pub fn freshened(table: &mut [u16]) -> Queue
    ensures { Freshens table.old table.new result }
{
    store::fresh(table, Queue::empty(), CELLS).queue
}

// As many steps as packets wait.
fn drain(table: &mut [u16], queue: &mut Queue, scratch: &mut [u16])
    ensures { Drains table.old queue.old scratch.old table.new queue.new scratch.new }
{
    for _ in 0..queue.count {
        *queue = store::step(table, *queue, scratch).queue;
    }
}

// The hold of a cell is given up; nil and atoms have none.
fn give_up(table: &mut [u16], queue: &mut Queue, word: u16)
    ensures { GivesUp word table.old queue.old table.new queue.new }
{
    if 0 < word && word < FIRST_ATOM {
        *queue = store::down(table, *queue, word, 1).queue;
    }
}

// The word of a line is let go, and its cells with it.
pub fn clean(table: &mut [u16], queue: &mut Queue, scratch: &mut [u16], word: u16)
    ensures { Cleans word table.old queue.old scratch.old table.new queue.new scratch.new }
{
    drain(table, queue, scratch);
    give_up(table, queue, word);
    drain(table, queue, scratch);
}
