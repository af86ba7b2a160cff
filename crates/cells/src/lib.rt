// Reading and writing the table: its header, and the cells in the part that begins at word 3, which is lent on to the functions that read and
// write fields and counts.
#![tactic(auto)]

mod part;

ghost use Rattle.std.specs.Prelude.{◌≡◌, suc, ◌≤◌, length, set};
ghost use Rattle.machine.specs.Table.{header, right, state, new_cell, free_cell, capacity, first_free, last_free, table_length};
ghost use Rattle.machine.specs.Table.{scratch_words, word_at, put_word, put_ends, put_cell, in_use};
ghost use Rattle.machine.specs.Step.{counter_word};

use machine::{CellCount, Counter, NameCount, RootCount};

// Words in front of the cells, and words of a cell.
const HEADER: usize = 3;

const STRIDE: usize = 6;

// The words of a table of the most cells.
pub const MOST_WORDS: usize = HEADER + STRIDE * (machine::MOST_CELLS as usize);

// How many words a table of c cells has.
pub fn words_for(c: u16) -> usize
    ensures { result ≡ table_length c }
{
    HEADER + STRIDE * usize::from(c)
}

// The words of scratch that a step or an audit of a table of the most cells needs.
pub const MOST_SCRATCH: usize = machine::MOST_CELLS as usize;

// How many words of scratch a table of c cells needs.
#[tactic(auto, unfolding(machine::specs::Table::scratch_words))]
pub fn scratch_for(c: u16) -> usize
    ensures { result ≡ scratch_words c }
{
    usize::from(c)
}

// The words of a cell.
pub const LEFT: usize = 0;

pub const RIGHT: usize = 1;

const STATE: usize = 4;

// States: a free cell's, and a new cell's.
const FREE: u16 = 0;

pub const USED: u16 = 1;

// A field of a cell: k is LEFT or RIGHT.
pub fn field(table: &[u16], index: usize, k: usize) -> u16
    requires { (table_length (suc index) ≤ length table.now) × (k ≤ right) }
    ensures { result ≡ word_at table.now index k }
{
    part::field(&table[HEADER..], index, k)
}

pub fn set_field(table: &mut [u16], index: usize, k: usize, v: u16)
    requires { (table_length (suc index) ≤ length table.old) × (k ≤ right) }
    ensures { table.new ≡ put_word table.old index k v }
{
    part::set_field(&mut table[HEADER..], index, k, v);
}

// A counter of a cell, of the sort that K is.
pub fn count<K: Counter>(table: &[u16], index: usize) -> K
    requires { table_length (suc index) ≤ length table.now }
    ensures { K.value result ≡ word_at table.now index (counter_word K.sort) }
{
    part::count(&table[HEADER..], index)
}

pub fn set_count<K: Counter>(table: &mut [u16], index: usize, n: K)
    requires { table_length (suc index) ≤ length table.old }
    ensures { table.new ≡ put_word table.old index (counter_word K.sort) (K.value n) }
{
    part::set_count(&mut table[HEADER..], index, n);
}

// The state's word itself; `in_use` asks only whether it is above 0.
pub fn state_word(table: &[u16], index: usize) -> u16
    requires { table_length (suc index) ≤ length table.now }
    ensures { result ≡ word_at table.now index state }
{
    part::state_word(&table[HEADER..], index)
}

fn set_state(table: &mut [u16], index: usize, v: u16)
    requires { table_length (suc index) ≤ length table.old }
    ensures { table.new ≡ put_word table.old index state v }
{
    part::set_state(&mut table[HEADER..], index, v);
}

#[tactic(auto, unfolding(machine::specs::Table::in_use))]
pub fn in_use(table: &[u16], index: usize) -> bool
    requires { table_length (suc index) ≤ length table.now }
    ensures { result ≡ in_use table.now index }
{
    FREE < state_word(table, index)
}

// A free cell: its left is the next free cell or 0, its other words are 0.
#[tactic(auto, unfolding(machine::specs::Table::put_cell, machine::specs::Table::put_words))]
pub fn set_free(table: &mut [u16], index: usize, next: u16)
    requires { table_length (suc index) ≤ length table.old }
    ensures { table.new ≡ put_cell table.old index (free_cell next) }
{
    set_field(table, index, LEFT, next);
    set_field(table, index, RIGHT, 0);
    set_count(table, index, RootCount(0));
    set_count(table, index, CellCount(0));
    set_state(table, index, FREE);
    set_count(table, index, NameCount(0));
}

// A new cell: both operands, root count 1, cell count 0; no packet names it yet.
#[tactic(auto, unfolding(machine::specs::Table::put_cell, machine::specs::Table::put_words))]
pub fn set_new(table: &mut [u16], index: usize, x: u16, y: u16)
    requires { table_length (suc index) ≤ length table.old }
    ensures { table.new ≡ put_cell table.old index (new_cell x y) }
{
    set_field(table, index, LEFT, x);
    set_field(table, index, RIGHT, y);
    set_count(table, index, RootCount(1));
    set_count(table, index, CellCount(0));
    set_state(table, index, USED);
    set_count(table, index, NameCount(0));
}

// The header: C, the first free cell, the last free cell.
#[tactic(auto, unfolding(machine::specs::Table::capacity))]
pub fn capacity_of(table: &[u16]) -> u16
    requires { header ≤ length table.now }
    ensures { result ≡ capacity table.now }
{
    table[0]
}

#[tactic(auto, unfolding(machine::specs::Table::first_free))]
pub fn first_free(table: &[u16]) -> u16
    requires { header ≤ length table.now }
    ensures { result ≡ first_free table.now }
{
    table[1]
}

#[tactic(auto, unfolding(machine::specs::Table::last_free))]
pub fn last_free(table: &[u16]) -> u16
    requires { header ≤ length table.now }
    ensures { result ≡ last_free table.now }
{
    table[2]
}

pub fn set_capacity(table: &mut [u16], c: u16)
    requires { header ≤ length table.old }
    ensures { table.new ≡ set table.old 0 c }
{
    table[0] = c;
}

#[tactic(auto, unfolding(machine::specs::Table::put_ends))]
pub fn set_ends(table: &mut [u16], first: u16, last: u16)
    requires { header ≤ length table.old }
    ensures { table.new ≡ put_ends table.old first last }
{
    table[1] = first;
    table[2] = last;
}
