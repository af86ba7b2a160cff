// S1: states are 0 or 1, counts at most 4,095; fields of cells in use are nil, atoms or cells in use.
ghost use Rattle.std.specs.Prelude.{◌≡◌, ◌<◌, ◌≤◌};
ghost use Rattle.machine.specs.Table.{right, capacity};
ghost use Rattle.machine.specs.Audit.{field_sound, cells_sound};
ghost use Rattle.machine.specs.Facts.{TableShape};
ghost use Rattle.audit_cells.specs.Cells.{counts_sound, field_holds};

use machine::{CellCount, FIRST_ATOM, Limited, RootCount};

// A word is nil, an atom or a cell in use.
pub fn field_sound(table: &[u16], w: u16) -> bool
    requires { TableShape table.now }
    ensures { result ≡ field_sound table.now w }
{
    w == 0
        || FIRST_ATOM <= w
        || (questions::is_cell(cells::capacity_of(table), w)
            && cells::in_use(table, (w - 1) as usize))
}

#[tactic(auto, unfolding(crate::specs::Cells::counts_sound))]
fn counts_sound(table: &[u16], index: usize) -> bool
    requires { TableShape table.now × (index < capacity table.now) }
    ensures { result ≡ counts_sound table.now index }
{
    cells::state_word(table, index) <= cells::USED
        && cells::count::<RootCount>(table, index).0 <= RootCount::CEILING
        && cells::count::<CellCount>(table, index).0 <= CellCount::CEILING
}

#[tactic(auto, unfolding(crate::specs::Cells::field_holds, machine::specs::Table::is_free))]
fn field_holds(table: &[u16], index: usize, k: usize) -> bool
    requires { TableShape table.now × (index < capacity table.now) × (k ≤ right) }
    ensures { result ≡ field_holds table.now index k }
{
    !cells::in_use(table, index) || field_sound(table, cells::field(table, index, k))
}

// Stops at the first cell field that breaks the rule.
// Kept: a labelled loop left from the inner one, in place of two `all`, since document 01 names the audit's S1 loop so.
pub fn cells_sound(table: &[u16]) -> bool
    requires { TableShape table.now }
    ensures { result ≡ cells_sound table.now }
{
    let mut sound = true;
    'cells: for index in 0..cells::capacity_of(table) as usize {
        sound = counts_sound(table, index);
        if !sound {
            break;
        }
        for k in [cells::LEFT, cells::RIGHT] {
            sound = field_holds(table, index, k);
            if !sound {
                break 'cells;
            }
        }
    }
    sound
}
