// Questions 6 to 10 as the code asks them of the call behind a packet, once the early ones have said "yes".
ghost use Rattle.std.specs.Prelude.{◌≡◌, true, ℕ};
ghost use Rattle.machine.specs.Words.{is_cell};
ghost use Rattle.machine.specs.Table.{capacity};
ghost use Rattle.machine.specs.Queue.{packet};
ghost use Rattle.machine.specs.Facts.{Shape};
ghost use Rattle.queue.specs.Sums.{packet_of};
ghost use Rattle.calls.specs.Early.{Replaces};
ghost use Rattle.calls.specs.Packets.{Operands};
ghost use Rattle.calls.specs.Tests.{LateAnswer};

use crate::operands::tally_of;
use crate::tests::{cons_tests, down_tests, read_tests, replace_tests, up_tests};
use machine::{Asked, Queue};
use queue::{Kind, Packet};

// Of a read of x that gives w.
fn read_late(table: &[u16], queue: &Queue, x: u16, w: u16) -> Asked
    requires { Shape table.now queue.now × (is_cell (capacity table.now) x ≡ true) }
    ensures { (z : ℕ) → LateAnswer table.now queue.now (packet 1 x w z) result }
{
    let tx = tally_of(table, queue, x);
    let tw = tally_of(table, queue, w);
    read_tests(queue, tx, tw, queue::matched(x, w, 1))
}

fn cons_late(table: &[u16], queue: &Queue, x: u16, y: u16) -> Asked
    requires { Shape table.now queue.now }
    ensures { (z : ℕ) → LateAnswer table.now queue.now (packet 2 x y z) result }
{
    let tx = tally_of(table, queue, x);
    let ty = tally_of(table, queue, y);
    let same = queue::matched(y, x, 1);
    cons_tests(queue, tx, ty, same, cells::first_free(table))
}

// Of a replace in x by y that detaches d, whichever the field.
fn replace_late(table: &[u16], queue: &Queue, y: u16, d: u16, x: u16) -> Asked
    requires { Shape table.now queue.now }
    ensures { (kind : ℕ) → Replaces kind → LateAnswer table.now queue.now (packet kind y d x) result }
{
    let ty = tally_of(table, queue, y);
    let tx = tally_of(table, queue, x);
    let same = queue::matched(x, y, 1);
    replace_tests(queue, ty, tx, same, queue::matched(d, y, 1))
}

pub fn late_asked(table: &[u16], queue: &Queue, p: Packet) -> Asked
    requires { Shape table.now queue.now × Operands table.now (packet_of p) }
    ensures { LateAnswer table.now queue.now (packet_of p) result }
{
    match p.known_kind() {
        Some(Kind::Read) => read_late(table, queue, p.a, p.b),
        Some(Kind::Cons) => cons_late(table, queue, p.a, p.b),
        Some(Kind::Up) => up_tests(queue, tally_of(table, queue, p.a), p.b),
        Some(Kind::Down) => down_tests(queue, tally_of(table, queue, p.a), p.b),
        Some(Kind::ReplaceLeft) => replace_late(table, queue, p.a, p.b, p.c),
        Some(Kind::ReplaceRight) => replace_late(table, queue, p.a, p.b, p.c),
        None => unreachable!(),
    }
}
