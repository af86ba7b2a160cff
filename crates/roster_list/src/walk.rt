// Walks over the list. Each is at one cell, of which it has a hold beside the roster's own.
ghost use Rattle.std.specs.Prelude.{◌≡◌};
ghost use Rattle.machine.specs.Answers.{call_of};
ghost use Rattle.roster_list.specs.Nodes.{read_of};
ghost use Rattle.roster_list.specs.Walks.{Looks, Turns, Seeks, Finds, Passes};

use crate::settling::settle;
use machine::{Queue, RowCall};
use readings::SEATS;

// What an entry has: its cell's left is the seat's atom, the right the reading's.
#[derive(Clone, Copy)]
pub enum Part {
    Seat,
    Reading,
}

// A cell of the list that is held, and how many cells of the list come before it.
#[derive(Clone, Copy)]
pub struct Place {
    pub at: u16,
    pub before: u16,
}

fn read_of(pair: u16, part: Part) -> RowCall
    ensures { call_of result ≡ read_of part pair }
{
    match part {
        Part::Seat => RowCall::Car(pair),
        Part::Reading => RowCall::Cdr(pair),
    }
}

// The seat or the reading of the entry at a cell of the list, whose hold is kept.
pub fn entry_word(
    table: &mut [u16],
    queue: &mut Queue,
    scratch: &mut [u16],
    at: u16,
    part: Part,
) -> u16
    ensures { Looks table.old queue.old scratch.old at part table.new queue.new scratch.new result }
{
    settle(table, queue, scratch, RowCall::Up(at, 1));
    let pair = settle(table, queue, scratch, RowCall::Car(at));
    settle(table, queue, scratch, read_of(pair, part))
}

// One turn: nothing where the cell's seat is the one looked for, and the cell stays held; else the next cell.
fn turn(table: &mut [u16], queue: &mut Queue, scratch: &mut [u16], at: u16, key: u16) -> Option<u16>
    ensures { Turns table.old queue.old scratch.old at key table.new queue.new scratch.new result }
{
    let seat = entry_word(table, queue, scratch, at, Part::Seat);
    if seat == key {
        return None;
    }
    let next = settle(table, queue, scratch, RowCall::Cdr(at));
    Some(next)
}

// From a cell of the list, which is held, on to the seat whose atom is key; nothing where it is absent.
fn seek(
    table: &mut [u16],
    queue: &mut Queue,
    scratch: &mut [u16],
    from: u16,
    key: u16,
) -> Option<Place>
    ensures { Seeks table.old queue.old scratch.old from key table.new queue.new scratch.new result }
{
    let mut at = from;
    for before in 0..SEATS {
        if at == 0 {
            return None;
        }
        match turn(table, queue, scratch, at, key) {
            None => return Some(Place { at, before }),
            Some(next) => at = next,
        }
    }
    None
}

// From the roster's word, whose hold is kept. Of an empty roster no row call is made; the audit clears the scratch.
pub fn find(
    table: &mut [u16],
    queue: &mut Queue,
    scratch: &mut [u16],
    word: u16,
    key: u16,
) -> Option<Place>
    ensures { Finds table.old queue.old scratch.old word key table.new queue.new scratch.new result }
{
    if word == 0 {
        let _ = store::audit(table, *queue, scratch);
        return None;
    }
    settle(table, queue, scratch, RowCall::Up(word, 1));
    seek(table, queue, scratch, word, key)
}

// Past k cells of the list, from one that is held.
pub fn pass(table: &mut [u16], queue: &mut Queue, scratch: &mut [u16], from: u16, k: u16) -> u16
    ensures { Passes table.old queue.old scratch.old from k table.new queue.new scratch.new result }
{
    let mut at = from;
    for _ in 0..k {
        at = settle(table, queue, scratch, RowCall::Cdr(at));
    }
    at
}
