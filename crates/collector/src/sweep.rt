// The sweep: one descending pass over the cells that frees those in use without a mark.
ghost use Rattle.std.specs.Prelude.{◌<◌, ◌≤◌, length};
ghost use Rattle.machine.specs.Table.{capacity, scratch_words};
ghost use Rattle.machine.specs.Facts.{TableShape};
ghost use Rattle.collector.specs.SweepPass.{Passes, Sweeps};

use crate::freeing::free;

// One cell of the pass: 1 where it is freed, else 0.
fn sweep_cell(table: &mut [u16], scratch: &[u16], index: u16) -> u16
    requires { TableShape table.old × (index < capacity table.old) × (scratch_words (capacity table.old) ≤ length scratch.now) }
    ensures { Passes table.old scratch.now index table.new result }
{
    let place = usize::from(index);
    if marks::is_marked(scratch, place) || !cells::in_use(table, place) {
        return 0;
    }
    free(table, index);
    1
}

// How many cells were freed.
pub(crate) fn sweep(table: &mut [u16], scratch: &[u16]) -> u16
    requires { TableShape table.old × (scratch_words (capacity table.old) ≤ length scratch.now) }
    ensures { Sweeps table.old scratch.now table.new result }
{
    let mut freed: u16 = 0;
    for i in (0..cells::capacity_of(table)).rev() {
        freed += sweep_cell(table, scratch, i);
    }
    freed
}
