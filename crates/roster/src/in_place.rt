// The calls with their questions, on the roster's queue and word in place.
ghost use Rattle.machine.specs.Calls.{store};
ghost use Rattle.readings.specs.Calls.{set, look_up, remove, count};
ghost use Rattle.readings.specs.Answers.{roster_reply};
ghost use Rattle.roster.specs.Promise.{RosterPromise};

use crate::{ask, past};
use machine::Queue;
use readings::RosterAnswer;

pub fn set(
    table: &mut [u16],
    queue: &mut Queue,
    word: &mut u16,
    scratch: &mut [u16],
    seat: u16,
    reading: u16,
) -> RosterAnswer
    ensures { RosterPromise (store table.old queue.old scratch.old) word.old (set seat reading) (roster_reply result) (store table.new queue.new scratch.new) word.new }
{
    ask::set_asked(table, queue, scratch, seat, reading)?;
    past::seat_set(table, queue, word, scratch, seat, reading)
}

pub fn look_up(
    table: &mut [u16],
    queue: &mut Queue,
    word: u16,
    scratch: &mut [u16],
    seat: u16,
) -> RosterAnswer
    ensures { RosterPromise (store table.old queue.old scratch.old) word (look_up seat) (roster_reply result) (store table.new queue.new scratch.new) word }
{
    ask::seat_asked(table, queue, scratch, seat)?;
    past::seat_read(table, queue, word, scratch, seat)
}

pub fn remove(
    table: &mut [u16],
    queue: &mut Queue,
    word: &mut u16,
    scratch: &mut [u16],
    seat: u16,
) -> RosterAnswer
    ensures { RosterPromise (store table.old queue.old scratch.old) word.old (remove seat) (roster_reply result) (store table.new queue.new scratch.new) word.new }
{
    ask::seat_asked(table, queue, scratch, seat)?;
    past::seat_removed(table, queue, word, scratch, seat)
}

pub fn count(
    table: &mut [u16],
    queue: &mut Queue,
    word: u16,
    scratch: &mut [u16],
    threshold: u16,
) -> RosterAnswer
    ensures { RosterPromise (store table.old queue.old scratch.old) word (count threshold) (roster_reply result) (store table.new queue.new scratch.new) word }
{
    roster_list::store_asked(table, queue, scratch)?;
    past::seats_counted(table, queue, word, scratch, threshold)
}
