// S3: slots not waiting are zero; waiting packets have legal kinds and words and name cells in use; replayed oldest first on the root counts,
// questions 6 and 9 hold each time; each cell's name count is how many times waiting packets name it.
#![tactic(auto)]

mod legality;
mod names;
mod replay;
pub mod slots;

ghost use Rattle.std.specs.Prelude.{◌≡◌, true};
ghost use Rattle.machine.specs.Facts.{Lent};
ghost use Rattle.machine.specs.Audit.{cells_sound, packets_sound};
ghost use Rattle.audit_packets.specs.Answers.{Audits};

use legality::packets_legal;
use machine::Queue;
use names::names_counted;
use replay::packets_replay;
use slots::other_slots_zero;

// Exact where S1 holds, which is asked first.
// Kept: table and queue are only read and scratch is written, so a struct of the three would be lent apart again, `&mut *lent.scratch`, at each call.
#[tactic(auto, unfolding(machine::specs::Audit::packets_sound, crate::specs::Packets::replays_all))]
pub fn packets_sound(table: &[u16], queue: &Queue, scratch: &mut [u16]) -> bool
    requires { Lent table.now queue.now scratch.old × (cells_sound table.now ≡ true) }
    ensures { Audits table.now (packets_sound table.now queue.now) scratch.old scratch.new result }
{
    other_slots_zero(queue)
        && packets_legal(table, queue)
        && packets_replay(table, queue)
        && names_counted(table, queue, scratch)
}
