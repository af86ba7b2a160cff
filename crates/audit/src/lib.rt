// The audit: of any store at all, sound or the lowest-numbered rule broken. Each rule is exact where the rules before it hold, which are asked
// first.
#![tactic(auto)]

mod live;

ghost use Rattle.machine.specs.Facts.{Lent};
ghost use Rattle.audit.specs.Contract.{Judged, Audited};

use audit_cells::chain::chain_sound;
use audit_cells::fields::cells_sound;
use audit_packets::packets_sound;
use audit_pointers::pointers_sound;
use live::all_reached;
use machine::{AuditAnswer, Finding, Queue, Rule};
use marks::clear;

// Kept: a chain of conditions, since `?` would need each rule's bool made a Result first, `.then_some(()).ok_or(rule)?`, which is no plainer.
fn judge(table: &[u16], queue: &Queue, scratch: &mut [u16]) -> Finding
    requires { Lent table.now queue.now scratch.old }
    ensures { Judged table.now queue.now scratch.old scratch.new result }
{
    if !cells_sound(table) {
        Finding::Broken(Rule::Cells)
    } else if !chain_sound(table) {
        Finding::Broken(Rule::FreeChain)
    } else if !packets_sound(table, queue, scratch) {
        Finding::Broken(Rule::Packets)
    } else if !pointers_sound(table, queue, scratch) {
        Finding::Broken(Rule::Pointers)
    } else if !all_reached(table, scratch) {
        Finding::Broken(Rule::Reached)
    } else {
        Finding::Sound
    }
}

// For any table, queue and scratch. The table is only read, and the scratch's front is 0 afterwards, also where a rule is broken.
pub fn audit_store(table: &[u16], queue: Queue, scratch: &mut [u16]) -> AuditAnswer
    ensures { Audited table.now queue scratch.old scratch.new result }
{
    questions::lent(table, &queue, scratch)?;
    let finding = judge(table, &queue, scratch);
    clear(scratch, cells::capacity_of(table));
    Ok(finding)
}
