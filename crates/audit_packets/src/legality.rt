// Waiting packets have legal kinds and words and name cells in use.
ghost use Rattle.std.specs.Prelude.{◌≡◌};
ghost use Rattle.machine.specs.Queue.{waiting};
ghost use Rattle.machine.specs.Packets.{kind_of};
ghost use Rattle.machine.specs.Audit.{words_of_kind, packets_legal, names_in_use};
ghost use Rattle.queue.specs.Sums.{packet_of};
ghost use Rattle.machine.specs.Facts.{TableShape, Shape};
ghost use Rattle.audit_packets.specs.Packets.{packet_sound};

use crate::slots::packet_on;
use audit_cells::fields::field_sound;
use machine::Queue;
use questions::{is_cell, is_legal, number_in_range};
use queue::{Kind, Packet};

// By the call that queued the packet.
#[tactic(auto, unfolding(machine::specs::Audit::words_of_kind))]
fn words_legal(n: u16, p: Packet) -> bool
    ensures { result ≡ words_of_kind n (kind_of p.kind) p.a p.b p.c }
{
    match p.known_kind() {
        Some(Kind::Read) => is_cell(n, p.a) && is_legal(n, p.b) && p.c == 0,
        Some(Kind::Cons | Kind::ReplaceLeft | Kind::ReplaceRight) => {
            is_legal(n, p.a) && is_legal(n, p.b) && is_cell(n, p.c)
        }
        Some(Kind::Up | Kind::Down) => is_cell(n, p.a) && number_in_range(p.b) && p.c == 0,
        None => false,
    }
}

// An up and a down name a only.
#[tactic(auto, unfolding(machine::specs::Audit::names_in_use, machine::specs::Packets::names, machine::specs::Packets::names_of, machine::specs::Range::every_of))]
fn names_in_use(table: &[u16], p: Packet) -> bool
    requires { TableShape table.now }
    ensures { result ≡ names_in_use table.now (packet_of p) }
{
    match p.known_kind() {
        Some(Kind::Read | Kind::Cons | Kind::ReplaceLeft | Kind::ReplaceRight) => {
            field_sound(table, p.a) && field_sound(table, p.b) && field_sound(table, p.c)
        }
        Some(Kind::Up | Kind::Down) => field_sound(table, p.a),
        None => true,
    }
}

#[tactic(auto, unfolding(crate::specs::Packets::packet_sound, machine::specs::Audit::packet_legal))]
fn packet_sound(table: &[u16], p: Packet) -> bool
    requires { TableShape table.now }
    ensures { result ≡ packet_sound table.now (packet_of p) }
{
    words_legal(cells::capacity_of(table), p) && names_in_use(table, p)
}

pub(crate) fn packets_legal(table: &[u16], queue: &Queue) -> bool
    requires { Shape table.now queue.now }
    ensures { result ≡ packets_legal table.now (waiting queue.now) }
{
    (0..queue.count).all(|j| packet_sound(table, packet_on(queue, j)))
}
