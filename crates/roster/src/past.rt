// The calls past their questions: the seat is looked for, and what is there is read or changed.
ghost use Rattle.machine.specs.Calls.{store};
ghost use Rattle.readings.specs.Calls.{set, look_up, remove, count};
ghost use Rattle.readings.specs.Answers.{roster_reply};
ghost use Rattle.roster.specs.Promise.{Past};

use machine::Queue;
use readings::RosterAnswer;
use roster_changes::{add, drop_first, link_past, read_out, replace};
use roster_list::{atom, find};

pub fn seat_set(
    table: &mut [u16],
    queue: &mut Queue,
    word: &mut u16,
    scratch: &mut [u16],
    seat: u16,
    reading: u16,
) -> RosterAnswer
    ensures { Past (store table.old queue.old scratch.old) word.old (set seat reading) (roster_reply result) (store table.new queue.new scratch.new) word.new }
{
    match find(table, queue, scratch, *word, atom(seat)) {
        None => add(table, queue, word, scratch, seat, reading),
        Some(place) => {
            replace(table, queue, scratch, place.at, reading);
            Ok(Some(0))
        }
    }
}

pub fn seat_read(
    table: &mut [u16],
    queue: &mut Queue,
    word: u16,
    scratch: &mut [u16],
    seat: u16,
) -> RosterAnswer
    ensures { Past (store table.old queue.old scratch.old) word (look_up seat) (roster_reply result) (store table.new queue.new scratch.new) word }
{
    match find(table, queue, scratch, word, atom(seat)) {
        None => Ok(None),
        Some(place) => Ok(Some(read_out(table, queue, scratch, place.at))),
    }
}

pub fn seat_removed(
    table: &mut [u16],
    queue: &mut Queue,
    word: &mut u16,
    scratch: &mut [u16],
    seat: u16,
) -> RosterAnswer
    ensures { Past (store table.old queue.old scratch.old) word.old (remove seat) (roster_reply result) (store table.new queue.new scratch.new) word.new }
{
    match find(table, queue, scratch, *word, atom(seat)) {
        None => Ok(None),
        Some(place) => {
            if place.before == 0 {
                *word = drop_first(table, queue, *word, scratch, place.at);
            } else {
                link_past(table, queue, *word, scratch, place.at, place.before - 1);
            }
            Ok(Some(0))
        }
    }
}

pub fn seats_counted(
    table: &mut [u16],
    queue: &mut Queue,
    word: u16,
    scratch: &mut [u16],
    threshold: u16,
) -> RosterAnswer
    ensures { Past (store table.old queue.old scratch.old) word (count threshold) (roster_reply result) (store table.new queue.new scratch.new) word }
{
    let number = roster_list::count(table, queue, scratch, word, threshold);
    Ok(Some(number))
}
