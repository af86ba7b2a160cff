// Cells freed by their indices, as the machine's sweep has it, from the last index down: the pointers out of a cell lower counts, then it joins the
// free chain at its front. A join writes its own cell and the free ends alone, so that every other cell's fields are unchanged when its turn comes.
ghost use Rattle.std.specs.Prelude.{◌≡◌, [], ◌∷◌, ◌<◌};
ghost use Rattle.machine.specs.Table.{capacity};
ghost use Rattle.machine.specs.Step.{lower_pointers, join, swept};
ghost use Rattle.machine.specs.Facts.{TableShape};
ghost use Rattle.collector.specs.FreedCells.{Listed};

use counts::down;
use machine::CellCount;

// A wiped cell joins the free chain at its front.
fn prepend(table: &mut [u16], index: u16)
    requires { TableShape table.old × (index < capacity table.old) }
    ensures { table.new ≡ join table.old index }
{
    let first = cells::first_free(table);
    let last = cells::last_free(table);
    cells::set_free(table, usize::from(index), first);
    if first == 0 {
        cells::set_ends(table, index + 1, index + 1);
    } else {
        cells::set_ends(table, index + 1, last);
    }
}

// The counts of the cells in a cell's fields fall.
fn lower_pointers(table: &mut [u16], index: u16)
    requires { TableShape table.old × (index < capacity table.old) }
    ensures { table.new ≡ lower_pointers table.old (index ∷ []) }
{
    let place = usize::from(index);
    let left = cells::field(table, place, cells::LEFT);
    let right = cells::field(table, place, cells::RIGHT);
    down::<CellCount>(table, left, 1);
    down::<CellCount>(table, right, 1);
}

// The cell at an index freed.
pub(crate) fn free(table: &mut [u16], index: u16)
    requires { TableShape table.old × (index < capacity table.old) }
    ensures { table.new ≡ swept table.old (index ∷ []) }
{
    lower_pointers(table, index);
    prepend(table, index);
}

// The cells of the list freed.
pub(crate) fn free_all(table: &mut [u16], dead: &[u16])
    requires { TableShape table.old × Listed (capacity table.old) dead.now }
    ensures { table.new ≡ swept table.old dead.now }
{
    for &index in dead.iter().rev() {
        free(table, index);
    }
}
