// Changes of the counters in the table's cells, of 16 bits each: a packet's count changes, and the names that it gives and gives up. Figure 8's
// rrc_up, rrc_down, crc_up and crc_down, by n at once, are made where the word is a cell: nil and atoms have no counts.
#![tactic(auto)]

pub mod names;

ghost use Rattle.std.specs.Prelude.{◌≡◌, ◌≤◌, length};
ghost use Rattle.machine.specs.Table.{header, capacity, table_length};
ghost use Rattle.machine.specs.Packets.{plus, minus, kind_of, changes_of};
ghost use Rattle.counts.specs.Changes.{Moves, apply_fitting};
ghost use Rattle.counts.specs.Cells.{IndexOf};

use machine::{CellCount, Counter, RootCount};
use questions::is_cell;
use queue::{Kind, Packet};

// Where the cell that a word names stands in the table, if it names one.
pub fn cell_index(table: &[u16], w: u16) -> Option<usize>
    requires { header ≤ length table.now }
    ensures { IndexOf table.now w result }
{
    if is_cell(cells::capacity_of(table), w) {
        Some(usize::from(w) - 1)
    } else {
        None
    }
}

// One counter of the cell that w names, of the sort that K is, raised or lowered by n.
pub fn up<K: Counter>(table: &mut [u16], w: u16, n: u16)
    requires { table_length (capacity table.old) ≤ length table.old }
    ensures { Moves table.old K.sort w plus n table.new }
{
    if let Some(index) = cell_index(table, w) {
        let count: K = cells::count(table, index);
        cells::set_count(table, index, count.raised(n));
    }
}

pub fn down<K: Counter>(table: &mut [u16], w: u16, n: u16)
    requires { table_length (capacity table.old) ≤ length table.old }
    ensures { Moves table.old K.sort w minus n table.new }
{
    if let Some(index) = cell_index(table, w) {
        let count: K = cells::count(table, index);
        cells::set_count(table, index, count.lowered(n));
    }
}

// The packet's changes, in figure 8's order; its x is a, its y is b.
#[tactic(auto, unfolding(machine::specs::Packets::changes_of, crate::specs::Changes::apply_fitting))]
pub fn apply(table: &mut [u16], packet: Packet)
    requires { table_length (capacity table.old) ≤ length table.old }
    ensures { table.new ≡ apply_fitting table.old (changes_of (kind_of packet.kind) packet.a packet.b) }
{
    let Some(kind) = packet.known_kind() else {
        return;
    };
    let Packet { a, b, .. } = packet;
    match kind {
        // P1
        Kind::Read => {
            down::<RootCount>(table, a, 1);
            up::<RootCount>(table, b, 1);
        }
        // P2
        Kind::Cons => {
            down::<RootCount>(table, a, 1);
            up::<CellCount>(table, a, 1);
            down::<RootCount>(table, b, 1);
            up::<CellCount>(table, b, 1);
        }
        // P3: the detached cell comes last, and its cell count falls
        Kind::ReplaceLeft | Kind::ReplaceRight => {
            down::<RootCount>(table, a, 1);
            up::<CellCount>(table, a, 1);
            down::<CellCount>(table, b, 1);
        }
        // P4
        Kind::Up => up::<RootCount>(table, a, b),
        // P5
        Kind::Down => down::<RootCount>(table, a, b),
    }
}
