// How many readings are at or above a threshold.
ghost use Rattle.std.specs.Prelude.{◌≡◌, cond, ◌-◌, leb};
ghost use Rattle.machine.specs.Words.{first_atom};
ghost use Rattle.roster_list.specs.Walks.{Weighs, Tallies, Counts};

use crate::atoms::value_of;
use crate::settling::settle;
use crate::walk::{Part, entry_word};
use machine::{Queue, RowCall};
use readings::SEATS;

#[derive(Clone, Copy)]
struct Weighed {
    weight: u16,
    next: u16,
}

// 1 where the atom's value is at or above the threshold, else 0.
fn weight_of(word: u16, threshold: u16) -> u16
    ensures { result ≡ cond (leb threshold (word - first_atom)) 1 0 }
{
    let value = value_of(word);
    u16::from(threshold <= value)
}

// One turn: the reading at a cell of the list, and the next cell.
fn weigh(
    table: &mut [u16],
    queue: &mut Queue,
    scratch: &mut [u16],
    at: u16,
    threshold: u16,
) -> Weighed
    ensures { Weighs table.old queue.old scratch.old at threshold table.new queue.new scratch.new result.next result.weight }
{
    let reading = entry_word(table, queue, scratch, at, Part::Reading);
    let weight = weight_of(reading, threshold);
    let next = settle(table, queue, scratch, RowCall::Cdr(at));
    Weighed { weight, next }
}

// From a cell of the list, which is held, to its end.
fn tally(
    table: &mut [u16],
    queue: &mut Queue,
    scratch: &mut [u16],
    from: u16,
    threshold: u16,
) -> u16
    ensures { Tallies table.old queue.old scratch.old from threshold table.new queue.new scratch.new result }
{
    let mut at = from;
    let mut count = 0;
    for _ in 0..SEATS {
        if at == 0 {
            return count;
        }
        let weighed = weigh(table, queue, scratch, at, threshold);
        at = weighed.next;
        count += weighed.weight;
    }
    count
}

// From the roster's word, whose hold is kept. Of an empty roster no row call is made; the audit clears the scratch.
pub fn count(
    table: &mut [u16],
    queue: &mut Queue,
    scratch: &mut [u16],
    word: u16,
    threshold: u16,
) -> u16
    ensures { Counts table.old queue.old scratch.old word threshold table.new queue.new scratch.new result }
{
    if word == 0 {
        let _ = store::audit(table, *queue, scratch);
        return 0;
    }
    settle(table, queue, scratch, RowCall::Up(word, 1));
    tally(table, queue, scratch, word, threshold)
}
