// What an accepted row call writes into the table.
ghost use Rattle.std.specs.Prelude.{◌≡◌, cond, ◌≤◌, eqb, length};
ghost use Rattle.machine.specs.Table.{header, first_free, last_free};
ghost use Rattle.machine.specs.Calls.{cons, written};
ghost use Rattle.machine.specs.Answers.{call_of};
ghost use Rattle.calls.specs.Writes.{InTable, Writable};

use machine::RowCall;

// The last free end once the first free cell, whose next one is given, is taken.
fn end_without_first(table: &[u16], next: u16) -> u16
    requires { header ≤ length table.now }
    ensures { result ≡ cond (eqb next 0) 0 (last_free table.now) }
{
    if next == 0 {
        0
    } else {
        cells::last_free(table)
    }
}

// The first free cell leaves the chain and gets both operands.
fn take_first(table: &mut [u16], x: u16, y: u16)
    requires { InTable table.old (first_free table.old) }
    ensures { table.new ≡ written table.old (cons x y) }
{
    let index = (cells::first_free(table) as usize) - 1;
    let next = cells::field(table, index, cells::LEFT);
    let last = end_without_first(table, next);
    cells::set_ends(table, next, last);
    cells::set_new(table, index, x, y);
}

pub fn write(table: &mut [u16], call: RowCall)
    requires { Writable table.old (call_of call) }
    ensures { table.new ≡ written table.old (call_of call) }
{
    match call {
        RowCall::Cons(x, y) => take_first(table, x, y),
        RowCall::SetLeft(x, y) => cells::set_field(table, (x as usize) - 1, cells::LEFT, y),
        RowCall::SetRight(x, y) => cells::set_field(table, (x as usize) - 1, cells::RIGHT, y),
        _ => {}
    }
}
