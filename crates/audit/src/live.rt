// S5: every cell in use is reached. The marks tell.
ghost use Rattle.std.specs.Prelude.{◌≡◌, suc, ◌<◌, ◌≤◌, length};
ghost use Rattle.machine.specs.Range.{every};
ghost use Rattle.machine.specs.Table.{capacity, scratch_words};
ghost use Rattle.machine.specs.Facts.{TableShape};
ghost use Rattle.machine.specs.Audit.{all_reached};
ghost use Rattle.audit_packets.specs.Answers.{Audits};
ghost use Rattle.audit.specs.Live.{free_or_marked};

use marks::{is_marked, mark};

#[tactic(auto, unfolding(crate::specs::Live::free_or_marked, machine::specs::Table::is_free))]
fn free_or_marked(table: &[u16], scratch: &[u16], index: usize) -> bool
    requires { TableShape table.now × (index < capacity table.now) × (scratch_words (suc index) ≤ length scratch.now) }
    ensures { result ≡ free_or_marked table.now scratch.now index }
{
    !cells::in_use(table, index) || is_marked(scratch, index)
}

#[tactic(auto, unfolding(machine::specs::Table::scratch_words))]
fn used_marked(table: &[u16], scratch: &[u16]) -> bool
    requires { TableShape table.now × (scratch_words (capacity table.now) ≤ length scratch.now) }
    ensures { result ≡ every (capacity table.now) (free_or_marked table.now scratch.now) }
{
    (0..cells::capacity_of(table) as usize).all(|index| free_or_marked(table, scratch, index))
}

pub(crate) fn all_reached(table: &[u16], scratch: &mut [u16]) -> bool
    requires { TableShape table.now × (scratch_words (capacity table.now) ≤ length scratch.old) }
    ensures { Audits table.now (all_reached table.now) scratch.old scratch.new result }
{
    mark(table, scratch);
    used_marked(table, scratch)
}
