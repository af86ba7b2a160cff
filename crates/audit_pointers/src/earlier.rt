// A field as it was before some of the waiting packets, found through them: nothing is written to the table.
ghost use Rattle.std.specs.Prelude.{◌≡◌, cond, suc, ◌<◌, ◌≤◌, eqb};
ghost use Rattle.machine.specs.Table.{right, capacity};
ghost use Rattle.machine.specs.Words.{most_cells};
ghost use Rattle.queue.specs.Sums.{packet_of};
ghost use Rattle.machine.specs.Facts.{Shape};
ghost use Rattle.audit_pointers.specs.EarlierFields.{newer, field_before, stage_field};

use audit_packets::slots::packet_on;
use machine::Queue;
use queue::{Kind, Packet};

// A word put back where the cell is the one written.
fn put_back(cell: u16, index: usize, old: u16, after: u16) -> u16
    requires { index < most_cells }
    ensures { result ≡ cond (eqb cell (suc index)) old after }
{
    if usize::from(cell) == index + 1 {
        old
    } else {
        after
    }
}

// Field k of the cell at an index before a packet, from what it holds after it.
#[tactic(auto, unfolding(crate::specs::EarlierFields::field_before, crate::specs::EarlierFields::field_before_of))]
fn field_before(p: Packet, index: usize, k: usize, after: u16) -> u16
    requires { (index < most_cells) × (k ≤ right) }
    ensures { result ≡ field_before (packet_of p) index k after }
{
    match p.known_kind() {
        Some(Kind::Cons) => put_back(p.c, index, 0, after),
        Some(Kind::ReplaceLeft) if k == cells::LEFT => put_back(p.c, index, p.b, after),
        Some(Kind::ReplaceRight) if k == cells::RIGHT => put_back(p.c, index, p.b, after),
        _ => after,
    }
}

// The field before all packets from the one on that `from` older ones wait before.
pub(crate) fn stage_field(table: &[u16], queue: &Queue, from: u16, index: usize, k: usize) -> u16
    requires { Shape table.now queue.now × (from ≤ queue.now.count) × (index < capacity table.now) × (k ≤ right) }
    ensures { result ≡ stage_field table.now (newer queue.now from) index k }
{
    let mut w = cells::field(table, index, k);
    for j in (from..queue.count).rev() {
        w = field_before(packet_on(queue, j), index, k, w);
    }
    w
}
