// The replay on the root counts, oldest first: questions 6 and 9 hold each time. A packet moves or uses only its own words, so that at its stage
// no other count is looked at.
ghost use Rattle.std.specs.Prelude.{◌≡◌, true, ◌<◌, ◌≤◌};
ghost use Rattle.machine.specs.Queue.{slots};
ghost use Rattle.machine.specs.Packets.{uses};
ghost use Rattle.machine.specs.Audit.{cells_sound};
ghost use Rattle.machine.specs.Words.{largest_word};
ghost use Rattle.queue.specs.Sums.{packet_of};
ghost use Rattle.machine.specs.Facts.{TableShape, Shape};
ghost use Rattle.audit_packets.specs.Packets.{packet_on, oldest, HeldAfter, stage_sound, word_replays, packet_replays, replays_all};

use crate::slots::packet_on;
use machine::{Queue, RootCount};
use questions::is_cell;
use queue::{HeldSums, Kind, Packet};

// How often the call behind a packet names x.
#[tactic(auto, unfolding(machine::specs::Packets::uses, machine::specs::Packets::uses_of))]
fn times_named(p: Packet, x: u16) -> u32
    ensures { (result ≡ uses (packet_of p) x) × (result ≤ largest_word) }
{
    match p.known_kind() {
        Some(Kind::Read | Kind::Up) => queue::matched(p.a, x, 1),
        Some(Kind::Cons) => queue::matched(p.a, x, 1) + queue::matched(p.b, x, 1),
        Some(Kind::ReplaceLeft | Kind::ReplaceRight) => {
            queue::matched(p.a, x, 1) + queue::matched(p.c, x, 1)
        }
        Some(Kind::Down) => queue::matched(p.a, x, p.b),
        None => 0,
    }
}

// The held count of the cell x, with its root count, after the j oldest packets.
fn held_after(queue: &Queue, j: u16, x: u16, root: RootCount) -> HeldSums
    requires { (queue.now.place < slots) × (j ≤ slots) }
    ensures { HeldAfter (oldest queue.now j) x root.0 result }
{
    let sums = queue::waiting_changes(queue, j, x);
    sums.held.with(root)
}

// Questions 6 and 9 of the cell x, with its root count, at the packet that j older ones wait before.
fn stage_sound(queue: &Queue, j: u16, x: u16, root: RootCount) -> bool
    requires { (queue.now.place < slots) × (j < slots) }
    ensures { result ≡ stage_sound x root.0 (oldest queue.now j) (packet_on queue.now j) }
{
    let before = held_after(queue, j, x, root);
    let after = held_after(queue, j + 1, x, root);
    before.at_least(times_named(packet_on(queue, j), x)) && after.within(0, 0)
}

// A word that is no cell has no counts.
#[tactic(auto, using(audit_cells::proofs::Tests::index_of), unfolding(crate::specs::Packets::word_replays, machine::specs::Words::is_cell))]
fn word_replays(table: &[u16], queue: &Queue, j: u16, x: u16) -> bool
    requires { TableShape table.now × (queue.now.place < slots) × (j < slots) }
    ensures { result ≡ word_replays table.now queue.now j x }
{
    !is_cell(cells::capacity_of(table), x)
        || stage_sound(
            queue,
            j,
            x,
            cells::count::<RootCount>(table, (x - 1) as usize),
        )
}

#[tactic(auto, unfolding(crate::specs::Packets::packet_replays))]
fn packet_replays(table: &[u16], queue: &Queue, j: u16) -> bool
    requires { TableShape table.now × (queue.now.place < slots) × (j < slots) }
    ensures { result ≡ packet_replays table.now queue.now j }
{
    let p = packet_on(queue, j);
    word_replays(table, queue, j, p.a)
        && word_replays(table, queue, j, p.b)
        && word_replays(table, queue, j, p.c)
}

pub(crate) fn packets_replay(table: &[u16], queue: &Queue) -> bool
    requires { Shape table.now queue.now × (cells_sound table.now ≡ true) }
    ensures { result ≡ replays_all table.now queue.now }
{
    (0..queue.count).all(|j| packet_replays(table, queue, j))
}
