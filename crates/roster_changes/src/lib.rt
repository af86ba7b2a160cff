// The roster's list changed by settled calls, at a cell of it that is held. For the crate `roster`, and for no one else.
#![tactic(auto)]

ghost use Rattle.readings.specs.Answers.{roster_reply};
ghost use Rattle.roster_changes.specs.Changes.{ReadsOut, Replaces, Adds, Links, DropsFirst, Relinks, LinksPast};

use machine::{Queue, Refusal, RowCall};
use readings::RosterAnswer;
use roster_list::{Part, atom, entry_word, pass, settle, value_of};

// The reading there.
pub fn read_out(table: &mut [u16], queue: &mut Queue, scratch: &mut [u16], at: u16) -> u16
    ensures { ReadsOut table.old queue.old scratch.old at table.new queue.new scratch.new result }
{
    let reading = entry_word(table, queue, scratch, at, Part::Reading);
    settle(table, queue, scratch, RowCall::Down(at, 1));
    value_of(reading)
}

// Another reading there.
pub fn replace(table: &mut [u16], queue: &mut Queue, scratch: &mut [u16], at: u16, reading: u16)
    ensures { Replaces table.old queue.old scratch.old at reading table.new queue.new scratch.new }
{
    let entry = settle(table, queue, scratch, RowCall::Car(at));
    settle(
        table,
        queue,
        scratch,
        RowCall::SetRight(entry, atom(reading)),
    );
    settle(table, queue, scratch, RowCall::Down(entry, 1));
}

// The entry's cell linked in front of the list; where no cell is free for that, it is given back.
fn link(
    table: &mut [u16],
    queue: &mut Queue,
    word: &mut u16,
    scratch: &mut [u16],
    pair: u16,
) -> RosterAnswer
    ensures { Links table.old queue.old scratch.old word.old pair (roster_reply result) table.new queue.new scratch.new word.new }
{
    let first = settle(table, queue, scratch, RowCall::Cons(pair, *word));
    if first == 0 {
        settle(table, queue, scratch, RowCall::Down(pair, 1));
        return Err(Refusal::NoFreeCell);
    }
    *word = first;
    Ok(Some(0))
}

// A new seat in front.
pub fn add(
    table: &mut [u16],
    queue: &mut Queue,
    word: &mut u16,
    scratch: &mut [u16],
    seat: u16,
    reading: u16,
) -> RosterAnswer
    ensures { Adds table.old queue.old scratch.old word.old seat reading (roster_reply result) table.new queue.new scratch.new word.new }
{
    let pair = settle(
        table,
        queue,
        scratch,
        RowCall::Cons(atom(seat), atom(reading)),
    );
    if pair == 0 {
        return Err(Refusal::NoFreeCell);
    }
    link(table, queue, word, scratch, pair)
}

// The first cell of the list let go: the word afterwards is the next.
pub fn drop_first(
    table: &mut [u16],
    queue: &mut Queue,
    word: u16,
    scratch: &mut [u16],
    at: u16,
) -> u16
    ensures { DropsFirst table.old queue.old scratch.old word at table.new queue.new scratch.new result }
{
    let next = settle(table, queue, scratch, RowCall::Cdr(at));
    settle(table, queue, scratch, RowCall::Down(word, 1));
    next
}

fn relink(table: &mut [u16], queue: &mut Queue, scratch: &mut [u16], before: u16, next: u16)
    ensures { Relinks table.old queue.old scratch.old before next table.new queue.new scratch.new }
{
    settle(table, queue, scratch, RowCall::SetRight(before, next));
    settle(table, queue, scratch, RowCall::Down(before, 1));
}

// A later cell linked past: k cells of the list come before the one that links to it.
pub fn link_past(
    table: &mut [u16],
    queue: &mut Queue,
    word: u16,
    scratch: &mut [u16],
    at: u16,
    k: u16,
)
    ensures { LinksPast table.old queue.old scratch.old word at k table.new queue.new scratch.new }
{
    let next = settle(table, queue, scratch, RowCall::Cdr(at));
    settle(table, queue, scratch, RowCall::Up(word, 1));
    let before = pass(table, queue, scratch, word, k);
    relink(table, queue, scratch, before, next);
}
