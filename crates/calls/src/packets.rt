// The packet of a row call, as the table of kinds has it, and the value replied by it.
ghost use Rattle.std.specs.Prelude.{◌≡◌, true, ◌≤◌};
ghost use Rattle.machine.specs.Words.{is_cell};
ghost use Rattle.machine.specs.Table.{right, capacity};
ghost use Rattle.machine.specs.Queue.{packet};
ghost use Rattle.machine.specs.Packets.{kind_of};
ghost use Rattle.machine.specs.Facts.{TableShape};
ghost use Rattle.machine.specs.Calls.{field, packet_of};
ghost use Rattle.machine.specs.Answers.{call_of};
ghost use Rattle.queue.specs.Sums as sums;
ghost use Rattle.queue.specs.Kinds.{kind_number};
ghost use Rattle.calls.specs.Packets.{Operands, value_by};

use machine::RowCall;
use queue::{Kind, Packet};

// Field k of the cell x.
fn field_of(table: &[u16], x: u16, k: usize) -> u16
    requires { TableShape table.now × (is_cell (capacity table.now) x ≡ true) × (k ≤ right) }
    ensures { result ≡ field table.now x k }
{
    cells::field(table, (x as usize) - 1, k)
}

fn packet(kind: Kind, a: u16, b: u16, c: u16) -> Packet
    ensures { sums.packet_of result ≡ packet (kind_number kind) a b c }
{
    Packet {
        kind: kind.number(),
        a,
        b,
        c,
    }
}

// The packet that an accepted call queues.
pub fn packet_of(table: &[u16], call: RowCall) -> Packet
    requires { TableShape table.now × Operands table.now (packet_of table.now (call_of call)) }
    ensures { sums.packet_of result ≡ packet_of table.now (call_of call) }
{
    match call {
        RowCall::Car(x) => packet(Kind::Read, x, field_of(table, x, cells::LEFT), 0),
        RowCall::Cdr(x) => packet(Kind::Read, x, field_of(table, x, cells::RIGHT), 0),
        RowCall::Cons(x, y) => packet(Kind::Cons, x, y, cells::first_free(table)),
        RowCall::SetLeft(x, y) => packet(Kind::ReplaceLeft, y, field_of(table, x, cells::LEFT), x),
        RowCall::SetRight(x, y) => packet(
            Kind::ReplaceRight,
            y,
            field_of(table, x, cells::RIGHT),
            x,
        ),
        RowCall::Up(x, n) => packet(Kind::Up, x, n, 0),
        RowCall::Down(x, n) => packet(Kind::Down, x, n, 0),
    }
}

#[tactic(auto, unfolding(crate::specs::Packets::value_by))]
// What an accepted call replies: the word read, the new cell, the word detached, else 0.
pub fn value_of(p: Packet) -> u16
    ensures { result ≡ value_by (kind_of p.kind) p.b p.c }
{
    match p.known_kind() {
        Some(Kind::Read | Kind::ReplaceLeft | Kind::ReplaceRight) => p.b,
        Some(Kind::Cons) => p.c,
        _ => 0,
    }
}
