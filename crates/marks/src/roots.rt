// Roots, told from the cell alone: its root count or its name count is above 0.
ghost use Rattle.std.specs.Prelude.{◌≡◌, suc, ◌≤◌, length};
ghost use Rattle.machine.specs.Table.{table_length};
ghost use Rattle.machine.specs.Packets.{kind_of};
ghost use Rattle.machine.specs.Reached.{is_root};
ghost use Rattle.machine.specs.Facts.{TableShape};
ghost use Rattle.machine.specs.ShortWay.{watched_of, stays_root};

use machine::{NameCount, RootCount};
use questions::is_cell;
use queue::{Kind, Packet};

// Whether a cell is a root.
#[tactic(auto, unfolding(machine::specs::Reached::is_root, machine::specs::Reached::is_protected))]
pub fn rooted(table: &[u16], index: usize) -> bool
    requires { table_length (suc index) ≤ length table.now }
    ensures { result ≡ is_root table.now index }
{
    0 < cells::count::<RootCount>(table, index).0 || 0 < cells::count::<NameCount>(table, index).0
}

// The word of a taken packet that tells whether anything can be freed.
#[tactic(auto, unfolding(machine::specs::ShortWay::watched_of))]
pub fn watched_of(packet: Packet) -> u16
    ensures { result ≡ watched_of (kind_of packet.kind) packet.a packet.b packet.c }
{
    match packet.known_kind() {
        Some(Kind::Read | Kind::Down) => packet.a,
        Some(Kind::Cons) => packet.c,
        Some(Kind::ReplaceLeft | Kind::ReplaceRight) => packet.b,
        Some(Kind::Up) | None => 0,
    }
}

// Whether the word w is no cell, or a root.
pub fn stays_root(table: &[u16], w: u16) -> bool
    requires { TableShape table.now }
    ensures { result ≡ stays_root table.now w }
{
    !is_cell(cells::capacity_of(table), w) || rooted(table, usize::from(w - 1))
}
