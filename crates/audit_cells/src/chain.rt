// S2: the free chain meets each free cell once, from first to last, and free cells are as laid out. A walk that meets free cells only and ends
// after as many steps as there are free cells meets each of them once, since a walk that meets a cell twice never ends: no marks.
ghost use Rattle.std.specs.Prelude.{◌≡◌, true, ◌<◌};
ghost use Rattle.machine.specs.Table.{capacity};
ghost use Rattle.machine.specs.Audit.{laid_out, chain_sound};
ghost use Rattle.machine.specs.Facts.{TableShape};
ghost use Rattle.audit_cells.specs.FreeChain.{free_or_used, free_laid_out, free_bit, free_cells, is_free_cell};

use machine::{CellCount, NameCount, RootCount};

#[tactic(auto, unfolding(machine::specs::Audit::laid_out, machine::specs::Range::every))]
fn laid_out(table: &[u16], index: usize) -> bool
    requires { TableShape table.now × (index < capacity table.now) }
    ensures { result ≡ laid_out table.now index }
{
    cells::field(table, index, cells::RIGHT) == 0
        && cells::count::<RootCount>(table, index).0 == 0
        && cells::count::<CellCount>(table, index).0 == 0
        && cells::state_word(table, index) == 0
        && cells::count::<NameCount>(table, index).0 == 0
}

#[tactic(auto, unfolding(crate::specs::FreeChain::free_or_used))]
fn free_or_used(table: &[u16], index: usize) -> bool
    requires { TableShape table.now × (index < capacity table.now) }
    ensures { result ≡ free_or_used table.now index }
{
    cells::in_use(table, index) || laid_out(table, index)
}

fn free_laid_out(table: &[u16]) -> bool
    requires { TableShape table.now }
    ensures { result ≡ free_laid_out table.now }
{
    (0..cells::capacity_of(table) as usize).all(|index| free_or_used(table, index))
}

fn free_cells(table: &[u16]) -> usize
    requires { TableShape table.now }
    ensures { result ≡ free_cells table.now }
{
    (0..cells::capacity_of(table) as usize)
        .filter(|&index| !cells::in_use(table, index))
        .count()
}

fn is_free_cell(table: &[u16], w: u16) -> bool
    requires { TableShape table.now }
    ensures { result ≡ is_free_cell table.now w }
{
    questions::is_cell(cells::capacity_of(table), w) && !cells::in_use(table, (w - 1) as usize)
}

fn chain_walks(table: &[u16], free: usize) -> bool
    requires { TableShape table.now × (free_laid_out table.now ≡ true) × (free ≡ free_cells table.now) }
    ensures { result ≡ chain_sound table.now }
{
    let mut w = cells::first_free(table);
    let mut last: u16 = 0;
    for _ in 0..free {
        if !is_free_cell(table, w) {
            return false;
        }
        last = w;
        w = cells::field(table, (w - 1) as usize, cells::LEFT);
    }
    w == 0 && last == cells::last_free(table)
}

#[tactic(auto, using(crate::proofs::FreeChain::laid_needed))]
pub fn chain_sound(table: &[u16]) -> bool
    requires { TableShape table.now }
    ensures { result ≡ chain_sound table.now }
{
    free_laid_out(table) && chain_walks(table, free_cells(table))
}
