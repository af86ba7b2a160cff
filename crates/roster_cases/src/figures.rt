// Figures of the store after a call, for any words. The root counts and the states are read by the crate `cells`.
ghost use Rattle.std.specs.Prelude.{◌≡◌, suc, ◌≤◌, length};
ghost use Rattle.machine.specs.Table.{root_count, table_length, word_at};
ghost use Rattle.roster_cases.specs.Figures.{cells_of, root_counts, root_count_of, used_cells};

use machine::{AuditAnswer, Finding, RootCount};
use state_lines::Store;
use std::io;

// How many cells a table says that it has; none where it is too short for them.
fn cells_of(table: &[u16]) -> u16
    ensures { result ≡ cells_of table.now }
{
    if table.len() < cells::words_for(0) {
        return 0;
    }
    let c = cells::capacity_of(table);
    if table.len() < cells::words_for(c) {
        return 0;
    }
    c
}

fn root_count_at(table: &[u16], index: usize) -> u64
    requires { table_length (suc index) ≤ length table.now }
    ensures { (result ≡ word_at table.now index root_count) × (result ≤ 65535) }
{
    u64::from(cells::count::<RootCount>(table, index).0)
}

// The sum of the root counts of all cells.
fn root_counts(table: &[u16]) -> u64
    ensures { result ≡ root_counts table.now }
{
    let c = cells_of(table);
    let mut sum: u64 = 0;
    for i in 0..usize::from(c) {
        sum += root_count_at(table, i);
    }
    sum
}

// The root count of the cell that a word is; 0 where it is none.
fn root_count_of(table: &[u16], word: u16) -> u64
    ensures { result ≡ root_count_of table.now word }
{
    if 0 < word && word <= cells_of(table) {
        root_count_at(table, usize::from(word - 1))
    } else {
        0
    }
}

// How many cells are in use.
fn cells_in_use(table: &[u16]) -> u64
    ensures { result ≡ used_cells table.now }
{
    let c = cells_of(table);
    let mut n: u64 = 0;
    for i in 0..usize::from(c) {
        if cells::in_use(table, i) {
            n += 1;
        }
    }
    n
}

// An audit's reply as the figure that the lists write: 0 where the store is sound, 9 where the audit is refused, else the number of the rule that is broken.
fn verdict(answer: AuditAnswer) -> u16 {
    match answer {
        Ok(Finding::Sound) => 0,
        Ok(Finding::Broken(rule)) => rule.number(),
        Err(_) => 9,
    }
}

// Writes the line `A v p h w k u`. Gives how many numbers it has. The audit is lent a scratch of the program's own.
pub fn write_figures<W: io::Write>(
    writer: &mut W,
    store: &Store,
    word: u16,
    audit_scratch: &mut [u16],
) -> usize
    ensures { result ≡ 6 }
{
    let table = store.table();
    let queue = *store.queue();
    let figures = [
        u64::from(verdict(store::audit(table, queue, audit_scratch))),
        u64::from(queue.count),
        root_counts(table),
        root_count_of(table, word),
        u64::from(word != 0),
        cells_in_use(table),
    ];
    let _ = write!(writer, "A");
    for figure in figures {
        let _ = write!(writer, " {figure}");
    }
    let _ = writeln!(writer);
    figures.len()
}
