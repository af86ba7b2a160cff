// The name counts, against how often waiting packets name each cell. That is counted in the scratch, so that each cell is looked at once.
ghost use Rattle.std.specs.Prelude.{◌≤◌, length};
ghost use Rattle.machine.specs.Table.{scratch_words};
ghost use Rattle.machine.specs.Queue.{waiting};
ghost use Rattle.machine.specs.Facts.{QueueShape, Lent};
ghost use Rattle.machine.specs.Audit.{names_counted};
ghost use Rattle.queue.specs.Sums.{packet_of};
ghost use Rattle.scratch_counts.specs.Counts.{Below};
ghost use Rattle.audit_packets.specs.Answers.{Audits};
ghost use Rattle.audit_packets.specs.Names.{most_names, CountPacket, NamesCount};

use crate::slots::packet_on;
use counts::names::names_of;
use machine::{NameCount, Queue};
use marks::clear;
use queue::Packet;
use scratch_counts::{counts_match, raise};

// Once for each place at which the packet names a cell.
fn count_packet(scratch: &mut [u16], c: u16, p: Packet)
    requires { (scratch_words c ≤ length scratch.old) × Below c most_names scratch.old }
    ensures { CountPacket c (packet_of p) scratch.old scratch.new }
{
    let names = names_of(p);
    raise(scratch, c, names.x);
    raise(scratch, c, names.y);
    raise(scratch, c, names.z);
}

fn count_names(queue: &Queue, scratch: &mut [u16], c: u16)
    requires { QueueShape queue.now × (scratch_words c ≤ length scratch.old) }
    ensures { NamesCount c (waiting queue.now) scratch.old scratch.new }
{
    clear(scratch, c);
    for j in 0..queue.count {
        count_packet(scratch, c, packet_on(queue, j));
    }
}

pub(crate) fn names_counted(table: &[u16], queue: &Queue, scratch: &mut [u16]) -> bool
    requires { Lent table.now queue.now scratch.old }
    ensures { Audits table.now (names_counted table.now (waiting queue.now)) scratch.old scratch.new result }
{
    count_names(queue, scratch, cells::capacity_of(table));
    counts_match::<NameCount>(table, scratch)
}
