// Pointers to each cell, counted in the scratch: a word for each cell.
ghost use Rattle.std.specs.Prelude.{◌≡◌, ◌<◌, ◌≤◌, length};
ghost use Rattle.machine.specs.Range.{every};
ghost use Rattle.machine.specs.Table.{capacity, scratch_words};
ghost use Rattle.machine.specs.Facts.{TableShape};
ghost use Rattle.scratch_counts.specs.Counts.{Below};
ghost use Rattle.audit_pointers.specs.PointerCounts.{most_pointers, CountCell, Counted, count_within, word_within};

use machine::{CellCount, Limited};
use marks::clear;
use questions::is_cell;
use scratch_counts::raise;

fn count_cell(table: &[u16], index: usize, scratch: &mut [u16], c: u16)
    requires { TableShape table.now × (c ≡ capacity table.now) × (index < c) × (scratch_words c ≤ length scratch.old) × Below c most_pointers scratch.old }
    ensures { CountCell table.now index scratch.old scratch.new }
{
    if cells::in_use(table, index) {
        raise(scratch, c, cells::field(table, index, cells::LEFT));
        raise(scratch, c, cells::field(table, index, cells::RIGHT));
    }
}

// The pointers of the table as it stands.
pub(crate) fn count_pointers(table: &[u16], scratch: &mut [u16], c: u16)
    requires { TableShape table.now × (c ≡ capacity table.now) × (scratch_words c ≤ length scratch.old) }
    ensures { Counted table.now c scratch.old scratch.new }
{
    clear(scratch, c);
    for index in 0..usize::from(c) {
        count_cell(table, index, scratch, c);
    }
}

pub(crate) fn all_within(scratch: &[u16], c: u16) -> bool
    requires { scratch_words c ≤ length scratch.now }
    ensures { result ≡ every c (count_within scratch.now) }
{
    scratch[..cells::scratch_for(c)]
        .iter()
        .all(|count| *count <= CellCount::CEILING)
}

pub(crate) fn word_within(scratch: &[u16], c: u16, w: u16) -> bool
    requires { scratch_words c ≤ length scratch.now }
    ensures { result ≡ word_within c scratch.now w }
{
    !is_cell(c, w) || scratch[(w - 1) as usize] <= CellCount::CEILING
}
