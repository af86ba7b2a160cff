// A count for each cell, in the scratch: word i counts the cell at index i.
#![tactic(auto)]

ghost use Rattle.std.specs.Prelude.{◌≡◌, ◌≤◌, length};
ghost use Rattle.machine.specs.Range.{every};
ghost use Rattle.machine.specs.Table.{capacity, scratch_words};
ghost use Rattle.machine.specs.Step.{counter_word};
ghost use Rattle.machine.specs.Facts.{TableShape};
ghost use Rattle.scratch_counts.specs.Counts.{CountUp, CountDown, RoomForOne, count_matches};

use machine::Counter;
use questions::is_cell;

// One more for the word w, if it is a cell.
#[tactic(auto, unfolding(machine::specs::Table::scratch_words, machine::specs::Words::is_cell))]
pub fn raise(scratch: &mut [u16], c: u16, w: u16)
    requires { (scratch_words c ≤ length scratch.old) × RoomForOne c scratch.old }
    ensures { CountUp c w scratch.old scratch.new }
{
    if is_cell(c, w) {
        let index = (w - 1) as usize;
        scratch[index] += 1;
    }
}

// One less; 0 stays 0.
// Kept: apart from `raise`, which asks for room: one function over the step would say both in its closure's contract, and be no plainer.
#[tactic(auto, unfolding(machine::specs::Table::scratch_words, machine::specs::Words::is_cell))]
pub fn lower(scratch: &mut [u16], c: u16, w: u16)
    requires { scratch_words c ≤ length scratch.old }
    ensures { CountDown c w scratch.old scratch.new }
{
    if is_cell(c, w) {
        let index = (w - 1) as usize;
        scratch[index] = scratch[index].saturating_sub(1);
    }
}

// Whether each cell's count, of the sort that K is, is the scratch's.
#[tactic(auto, unfolding(machine::specs::Table::scratch_words))]
pub fn counts_match<K: Counter>(table: &[u16], scratch: &[u16]) -> bool
    requires { TableShape table.now × (scratch_words (capacity table.now) ≤ length scratch.now) }
    ensures { result ≡ every (capacity table.now) (count_matches (counter_word K.sort) table.now scratch.now) }
{
    (0..cells::capacity_of(table) as usize).all(|index| cells::count::<K>(table, index).get()
        == scratch[index])
}
