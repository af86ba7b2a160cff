// The pending cells, met and not followed yet, threaded through the scratch (specs/Stack.antt). Each cell is pushed and popped once.
ghost use Rattle.std.specs.Prelude.{◌+◌, ◌<◌, ◌≤◌, length};
ghost use Rattle.machine.specs.Words.{most_cells};
ghost use Rattle.machine.specs.Table.{table_length, scratch_words};
ghost use Rattle.marks.specs.Stack.{stack, pushed, pushed_if_rooted, pushed_rooted, visited, Pushes, Visitable, Followable, Follows};

use crate::roots::rooted;
use questions::is_cell;

// The word w met: the first pending cell afterwards.
fn push(scratch: &mut [u16], c: u16, top: u16, w: u16) -> u16
    requires { (scratch_words c ≤ length scratch.old) × (c ≤ most_cells) × (top ≤ c) }
    ensures { Pushes c (stack scratch.new result) (pushed c w (stack scratch.old top)) }
{
    if is_cell(c, w) {
        let index = usize::from(w - 1);
        if scratch[index] == 0 {
            scratch[index] = top + 2;
            return w;
        }
    }
    top
}

fn push_if_rooted(table: &[u16], scratch: &mut [u16], c: u16, top: u16, i: u16) -> u16
    requires { (table_length c ≤ length table.now) × (scratch_words c ≤ length scratch.old) × (c ≤ most_cells) × (top ≤ c) × (i < c) }
    ensures { Pushes c (stack scratch.new result) (pushed_if_rooted table.now c i (stack scratch.old top)) }
{
    if rooted(table, usize::from(i)) {
        push(scratch, c, top, i + 1)
    } else {
        top
    }
}

// The roots.
pub(crate) fn push_rooted(table: &[u16], scratch: &mut [u16], c: u16) -> u16
    requires { (table_length c ≤ length table.now) × (scratch_words c ≤ length scratch.old) × (c ≤ most_cells) }
    ensures { Pushes c (stack scratch.new result) (pushed_rooted table.now c c (stack scratch.old 0)) }
{
    let mut top: u16 = 0;
    for i in 0..c {
        top = push_if_rooted(table, scratch, c, top, i);
    }
    top
}

// The first pending cell taken off and its fields followed.
fn visit(table: &[u16], scratch: &mut [u16], c: u16, top: u16) -> u16
    requires { Visitable c table.now (stack scratch.old top) }
    ensures { Pushes c (stack scratch.new result) (visited table.now c (stack scratch.old top)) }
{
    let index = usize::from(top - 1);
    let next = scratch[index] - 2;
    scratch[index] = 1;
    let one = push(scratch, c, next, cells::field(table, index, cells::LEFT));
    push(scratch, c, one, cells::field(table, index, cells::RIGHT))
}

// The cells that the pending ones lead to marked.
pub(crate) fn follow(table: &[u16], scratch: &mut [u16], c: u16, first: u16)
    requires { Followable c table.now (stack scratch.old first) }
    ensures { Follows c table.now scratch.old scratch.new }
{
    let mut top = first;
    // Kept: a word of the scratch links to the next pending cell, and 0 is its "none" (`Chained` of specs/Stack.antt): pending cells come while others go.
    while top != 0 {
        top = visit(table, scratch, c, top);
    }
}
