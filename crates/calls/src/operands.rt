// A word's counters with their waiting changes.
ghost use Rattle.std.specs.Prelude.{suc};
ghost use Rattle.machine.specs.Queue.{slots, waiting};
ghost use Rattle.machine.specs.Facts.{Shape};
ghost use Rattle.queue.specs.Sums.{Bounded};
ghost use Rattle.calls.specs.Tally.{TallyOf};

use machine::Queue;
use queue::{CounterSums, Sums};

// One pass over the waiting slots where the word is a cell. No question says "no" of any other word: it counts as held twice, with no pointers.
pub fn tally_of(table: &[u16], queue: &Queue, w: u16) -> Sums
    requires { Shape table.now queue.now }
    ensures { TallyOf table.now (waiting queue.now) w result × Bounded (suc slots) result }
{
    let Some(index) = counts::cell_index(table, w) else {
        return Sums {
            held: CounterSums::new(2, 0),
            pointers: CounterSums::new(0, 0),
        };
    };
    let s = queue::waiting_changes(queue, queue.count, w);
    Sums {
        held: s.held.with(cells::count(table, index)),
        pointers: s.pointers.with(cells::count(table, index)),
    }
}
