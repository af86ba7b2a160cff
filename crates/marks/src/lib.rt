// Marks of the reached cells in the scratch. Only this crate knows how they lie there: callers ask `is_marked`.
#![tactic(auto)]

mod pending;
pub mod roots;

ghost use Rattle.std.specs.Prelude.{◌≡◌, suc, ◌≤◌, length};
ghost use Rattle.machine.specs.Table.{capacity, scratch_words};
ghost use Rattle.machine.specs.Step.{cleared};
ghost use Rattle.machine.specs.Facts.{TableShape};
ghost use Rattle.marks.specs.Marks.{is_marked, Marks};

use crate::pending::{follow, push_rooted};

// The scratch of a table of c cells made 0.
pub fn clear(scratch: &mut [u16], c: u16)
    requires { scratch_words c ≤ length scratch.old }
    ensures { scratch.new ≡ cleared (scratch_words c) scratch.old }
{
    scratch[..cells::scratch_for(c)].fill(0);
}

// Every reached cell marked, from a scratch that holds anything.
pub fn mark(table: &[u16], scratch: &mut [u16])
    requires { TableShape table.now × (scratch_words (capacity table.now) ≤ length scratch.old) }
    ensures { Marks table.now scratch.old scratch.new }
{
    let capacity = cells::capacity_of(table);
    clear(scratch, capacity);
    let top = push_rooted(table, scratch, capacity);
    follow(table, scratch, capacity, top);
}

pub fn is_marked(scratch: &[u16], index: usize) -> bool
    requires { scratch_words (suc index) ≤ length scratch.now }
    ensures { result ≡ is_marked scratch.now index }
{
    0 < scratch[index]
}
