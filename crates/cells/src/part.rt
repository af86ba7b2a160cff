// The cells: the part of the table that begins at word 3, lent to the functions that read and write fields and counts. Counters go in and out as
// their own types.
ghost use Rattle.std.specs.Prelude.{◌≡◌, suc, ◌*◌, ◌<◌, ◌≤◌, length};
ghost use Rattle.machine.specs.Table.{stride, right, state};
ghost use Rattle.machine.specs.Step.{counter_word};
ghost use Rattle.cells.specs.Part.{word_in, put_word_in};

use crate::{STATE, STRIDE};
use machine::Counter;

fn word(cells: &[u16], index: usize, k: usize) -> u16
    requires { (stride * suc index ≤ length cells.now) × (k < stride) }
    ensures { result ≡ word_in cells.now index k }
{
    cells[STRIDE * index + k]
}

fn put_word(cells: &mut [u16], index: usize, k: usize, v: u16)
    requires { (stride * suc index ≤ length cells.old) × (k < stride) }
    ensures { cells.new ≡ put_word_in cells.old index k v }
{
    cells[STRIDE * index + k] = v;
}

// k is LEFT or RIGHT.
pub fn field(cells: &[u16], index: usize, k: usize) -> u16
    requires { (stride * suc index ≤ length cells.now) × (k ≤ right) }
    ensures { result ≡ word_in cells.now index k }
{
    word(cells, index, k)
}

pub fn set_field(cells: &mut [u16], index: usize, k: usize, v: u16)
    requires { (stride * suc index ≤ length cells.old) × (k ≤ right) }
    ensures { cells.new ≡ put_word_in cells.old index k v }
{
    put_word(cells, index, k, v);
}

// A counter of a cell.
pub fn count<K: Counter>(cells: &[u16], index: usize) -> K
    requires { stride * suc index ≤ length cells.now }
    ensures { K.value result ≡ word_in cells.now index (counter_word K.sort) }
{
    K::of(word(cells, index, K::WORD))
}

pub fn set_count<K: Counter>(cells: &mut [u16], index: usize, n: K)
    requires { stride * suc index ≤ length cells.old }
    ensures { cells.new ≡ put_word_in cells.old index (counter_word K.sort) (K.value n) }
{
    put_word(cells, index, K::WORD, n.get());
}

pub fn state_word(cells: &[u16], index: usize) -> u16
    requires { stride * suc index ≤ length cells.now }
    ensures { result ≡ word_in cells.now index state }
{
    word(cells, index, STATE)
}

pub fn set_state(cells: &mut [u16], index: usize, v: u16)
    requires { stride * suc index ≤ length cells.old }
    ensures { cells.new ≡ put_word_in cells.old index state v }
{
    put_word(cells, index, STATE, v);
}
