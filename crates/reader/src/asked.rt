// The questions before a text is read. Nothing is written until all of them say "yes".
ghost use Rattle.std.specs.Prelude.{◌≡◌, ◌≤◌};
ghost use Rattle.notation.specs.Trees.{largest_value};
ghost use Rattle.machine.specs.Table.{first_free};
ghost use Rattle.machine.specs.Queue.{slots};
ghost use Rattle.machine.specs.Facts.{TableShape};
ghost use Rattle.machine.specs.Questions.{first_no};
ghost use Rattle.machine.specs.Answers.{refusal_number, asked_number};
ghost use Rattle.reader.specs.Called.{chain_has, pairs_number, tree_number, fault_number, read_questions};

use machine::{Asked, FIRST_ATOM, Queue, Refusal};
use scanner::Fault;

// The free chain has n cells: it is followed that far, whatever the table is.
fn chain_has(table: &[u16], n: u16) -> bool
    requires { TableShape table.now }
    ensures { result ≡ chain_has n table.now (first_free table.now) }
{
    let c = cells::capacity_of(table);
    let mut w = cells::first_free(table);
    for _ in 0..n {
        if !questions::is_cell(c, w) {
            return false;
        }
        w = cells::field(table, (w as usize) - 1, cells::LEFT);
    }
    true
}

// Questions 7 and 8 of n pairs.
fn pairs_asked(table: &[u16], count: u16, n: u16) -> Asked
    requires { TableShape table.now × (count ≤ slots) }
    ensures { asked_number result ≡ pairs_number table.now count n }
{
    if Queue::SLOTS - count < n {
        return Err(Refusal::QueueFull);
    }
    if !chain_has(table, n) {
        return Err(Refusal::NoFreeCell);
    }
    Ok(())
}

// And before them question 14 of the atoms, by the largest of their values.
fn tree_asked(table: &[u16], count: u16, pairs: u16, largest: u16) -> Asked
    requires { TableShape table.now × (count ≤ slots) × (largest ≤ largest_value) }
    ensures { asked_number result ≡ tree_number table.now count pairs largest }
{
    if !questions::may_be_stored(FIRST_ATOM + largest) {
        return Err(Refusal::ClippedReading);
    }
    pairs_asked(table, count, pairs)
}

// Questions 11 and 12, which a text without a tree fails.
fn refusal(fault: Fault) -> Refusal
    ensures { refusal_number result ≡ fault_number fault }
{
    match fault {
        Fault::Outside => Refusal::NotInNotation,
        Fault::TooDeep => Refusal::TooDeep,
    }
}

// All of them: 1, 11, 12, 14, 7 and 8.
pub fn text_asked(table: &[u16], queue: &Queue, text: &[u8]) -> Asked
    ensures { asked_number result ≡ first_no (read_questions table.now queue.now text.now) }
{
    if !questions::in_range(table, queue) {
        return Err(Refusal::StoreOutOfRange);
    }
    let scanned = scanner::scan(text);
    match scanned {
        Ok(tree) => tree_asked(table, queue.count, tree.pairs, tree.largest),
        Err(fault) => Err(refusal(fault)),
    }
}
