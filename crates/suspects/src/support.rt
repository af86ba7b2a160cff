// The suspects that are kept: supported ones, and what these lead on to.
ghost use Rattle.std.specs.Prelude.{length};
ghost use Rattle.suspects.specs.Support.{Countable, Supports, Closed, Keeps};

use machine::CellCount;
use walks::Walk;

// The suspects to which fewer pointers come from suspects than their cell counts say.
fn supported(table: &[u16], suspects: &Walk) -> Walk
    requires { Countable table.now suspects.now.cells }
    ensures { Supports table.now suspects.now (length suspects.now.cells) result }
{
    let mut kept = Walk::new();
    for met in suspects.list() {
        let count: CellCount = cells::count(table, usize::from(met.cell));
        if met.pointers < count.0 {
            kept.start(met.cell);
        }
    }
    kept
}

// No more cells are kept than suspected, so that the walk does not give up.
pub(crate) fn kept_of(table: &[u16], suspects: &Walk, most: usize) -> Walk
    requires { Closed table.now suspects.now.cells most }
    ensures { Keeps table.now suspects.now result }
{
    let mut kept = supported(table, suspects);
    kept.walk(table, most).unwrap();
    kept
}
