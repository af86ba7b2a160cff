// Name counts: a packet counts once for each place at which it names a cell.
ghost use Rattle.std.specs.Prelude.{◌≡◌, [], ◌∷◌, ◌≤◌, length};
ghost use Rattle.machine.specs.Table.{capacity, table_length};
ghost use Rattle.queue.specs.Sums.{packet_of};
ghost use Rattle.machine.specs.Packets.{kind_of, minus};
ghost use Rattle.machine.specs.Step.{named};
ghost use Rattle.counts.specs.Changes.{named_fitting};
ghost use Rattle.counts.specs.Names.{three_of};

use crate::{down, up};
use machine::NameCount;
use queue::{Kind, Packet};

// The words that a packet names, nil in the place of those that it does not: kinds 4 and 5 name a only.
#[derive(Clone, Copy)]
pub struct Names {
    pub x: u16,
    pub y: u16,
    pub z: u16,
}

#[tactic(auto, unfolding(crate::specs::Names::three_of))]
pub fn names_of(packet: Packet) -> Names
    ensures { result.x ∷ result.y ∷ result.z ∷ [] ≡ three_of (kind_of packet.kind) packet.a packet.b packet.c }
{
    let x = packet.a;
    match packet.known_kind() {
        Some(Kind::Read | Kind::Cons | Kind::ReplaceLeft | Kind::ReplaceRight) => Names {
            x,
            y: packet.b,
            z: packet.c,
        },
        Some(Kind::Up | Kind::Down) => Names { x, y: 0, z: 0 },
        None => Names { x: 0, y: 0, z: 0 },
    }
}

// A packet is queued.
pub fn name_packet(table: &mut [u16], packet: Packet)
    requires { table_length (capacity table.old) ≤ length table.old }
    ensures { table.new ≡ named_fitting table.old (packet_of packet) }
{
    let names = names_of(packet);
    up::<NameCount>(table, names.x, 1);
    up::<NameCount>(table, names.y, 1);
    up::<NameCount>(table, names.z, 1);
}

// A packet is taken.
pub fn unname_packet(table: &mut [u16], packet: Packet)
    requires { table_length (capacity table.old) ≤ length table.old }
    ensures { table.new ≡ named minus table.old (packet_of packet) }
{
    let names = names_of(packet);
    down::<NameCount>(table, names.x, 1);
    down::<NameCount>(table, names.y, 1);
    down::<NameCount>(table, names.z, 1);
}
