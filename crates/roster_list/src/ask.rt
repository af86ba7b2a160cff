// Questions 1 and 2 asked through the store, which changes nothing on any store.
ghost use Rattle.machine.specs.Calls.{store};
ghost use Rattle.readings.specs.Calls.{ask_store};
ghost use Rattle.roster_list.specs.Asking.{Asks, ScratchAsks};

use machine::{Asked, Queue};

// Question 2, by a step that is lent an empty queue: it is idle, whatever the table holds.
fn scratch_asked(table: &mut [u16], scratch: &mut [u16]) -> Asked
    ensures { ScratchAsks table.old scratch.old result table.new scratch.new }
{
    let stepped = store::step(table, Queue::empty(), scratch);
    let answer = stepped.answer;
    answer?;
    Ok(())
}

// Questions 1 and 2, as a step is asked them. A read of nil is asked 1 and 4 alone.
pub fn store_asked(table: &mut [u16], queue: &Queue, scratch: &mut [u16]) -> Asked
    ensures { Asks (ask_store (store table.old queue.now scratch.old)) table.old scratch.old result table.new scratch.new }
{
    let reply = store::car(table, *queue, 0);
    let read = reply.answer;
    read?;
    scratch_asked(table, scratch)
}
