// The queue's slots: the waiting packets from the oldest on, and that the others are zero.
ghost use Rattle.std.specs.Prelude.{◌≡◌, ◌+◌, ◌<◌};
ghost use Rattle.machine.specs.Queue.{slots};
ghost use Rattle.machine.specs.Facts.{QueueShape};
ghost use Rattle.machine.specs.Audit.{is_zero_packet, other_slots_zero};
ghost use Rattle.queue.specs.Sums.{packet_of};
ghost use Rattle.audit_packets.specs.Packets.{packet_on, rest_zero};

use machine::Queue;
use queue::Packet;

// The packet that j older ones wait before.
pub fn packet_on(queue: &Queue, j: u16) -> Packet
    requires { (queue.now.place < slots) × (j < slots) }
    ensures { packet_of result ≡ packet_on queue.now j }
{
    queue::packet_at(queue, queue::slot_after(queue.place, j))
}

#[tactic(auto, unfolding(machine::specs::Audit::is_zero_packet))]
fn is_zero(p: Packet) -> bool
    ensures { result ≡ is_zero_packet (packet_of p) }
{
    p.kind == 0 && p.a == 0 && p.b == 0 && p.c == 0
}

fn rest_zero(queue: &Queue, j: u16) -> bool
    requires { (queue.now.place < slots) × (queue.now.count + j < slots) }
    ensures { result ≡ rest_zero queue.now j }
{
    is_zero(packet_on(queue, queue.count + j))
}

pub fn other_slots_zero(queue: &Queue) -> bool
    requires { QueueShape queue.now }
    ensures { result ≡ other_slots_zero queue.now }
{
    (0..Queue::SLOTS - queue.count).all(|j| rest_zero(queue, j))
}
