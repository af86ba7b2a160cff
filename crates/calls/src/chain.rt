// What a fresh writes: the header and the chain of all cells.
ghost use Rattle.std.specs.Prelude.{◌≡◌, cond, suc, ◌<◌, ◌≤◌, eqb, length};
ghost use Rattle.machine.specs.Words.{most_cells};
ghost use Rattle.machine.specs.Table.{table_length, free_cell, put_cell};
ghost use Rattle.machine.specs.Calls.{fresh_table};

// The cell after the index i, of c cells; 0 after the last.
fn next_cell(c: u16, i: u16) -> u16
    requires { (i < c) × (c ≤ most_cells) }
    ensures { result ≡ cond (eqb (suc i) c) 0 (suc (suc i)) }
{
    if i + 1 == c { 0 } else { i + 2 }
}

fn chain_cell(table: &mut [u16], c: u16, i: u16)
    requires { (i < c) × (c ≤ most_cells) × (table_length c ≤ length table.old) }
    ensures { table.new ≡ put_cell table.old i (free_cell (cond (eqb (suc i) c) 0 (suc (suc i)))) }
{
    cells::set_free(table, i as usize, next_cell(c, i));
}

// All cells in a chain 1 to c.
pub fn make_chain(table: &mut [u16], c: u16)
    requires { (1 ≤ c) × (c ≤ most_cells) × (table_length c ≤ length table.old) }
    ensures { table.new ≡ fresh_table c table.old }
{
    cells::set_capacity(table, c);
    cells::set_ends(table, 1, c);
    for i in 0..c {
        chain_cell(table, c, i);
    }
}
