// The collector's step: the oldest packet is applied, and the cells in use that no root reaches any more are freed.
#![tactic(auto)]

mod freeing;
mod sweep;

ghost use Rattle.std.specs.Prelude.{◌≡◌, false, ◌≤◌, length};
ghost use Rattle.machine.specs.Table.{capacity, scratch_words};
ghost use Rattle.machine.specs.Step.{unreached};
ghost use Rattle.machine.specs.Facts.{TableShape};
ghost use Rattle.machine.specs.ShortWay.{stays_root};
ghost use Rattle.queue.specs.Sums.{packet_of};
ghost use Rattle.collector.specs.Steps.{Frees, Collects, Applies, Steps};

use counts::names::unname_packet;
use machine::{Queue, Step, StepAnswer};
use marks::roots::{stays_root, watched_of};
use queue::Packet;
use suspects::dead_of;

// A step's answer, and the queue afterwards.
#[derive(Clone, Copy)]
pub struct Stepped {
    pub answer: StepAnswer,
    pub queue: Queue,
}

// Mark and sweep: how many cells were freed.
fn collect(table: &mut [u16], scratch: &mut [u16]) -> u16
    requires { TableShape table.old × (scratch_words (capacity table.old) ≤ length scratch.old) }
    ensures { Frees table.old (unreached table.old) scratch.old table.new scratch.new result }
{
    let capacity = cells::capacity_of(table);
    marks::mark(table, scratch);
    let freed = sweep::sweep(table, scratch);
    marks::clear(scratch, capacity);
    freed
}

// What hangs on the watched cell alone, or where that is too much, mark and sweep: how many cells were freed.
fn collect_from(table: &mut [u16], watched: u16, scratch: &mut [u16]) -> u16
    requires { TableShape table.old × (scratch_words (capacity table.old) ≤ length scratch.old) × (stays_root table.old watched ≡ false) }
    ensures { Collects table.old watched scratch.old table.new scratch.new result }
{
    let capacity = cells::capacity_of(table);
    let Some(dead) = dead_of(table, watched) else {
        return collect(table, scratch);
    };
    freeing::free_all(table, dead.as_slice());
    marks::clear(scratch, capacity);
    dead.len() as u16
}

// The oldest packet, which has left the queue, is applied and names its cells no longer: how many cells were freed. Where its watched word is no cell
// or still a root, nothing hangs on it, and nothing is freed.
fn apply_oldest(table: &mut [u16], oldest: Packet, scratch: &mut [u16]) -> u16
    requires { TableShape table.old × (scratch_words (capacity table.old) ≤ length scratch.old) }
    ensures { Applies table.old (packet_of oldest) scratch.old table.new scratch.new result }
{
    let capacity = cells::capacity_of(table);
    let watched = watched_of(oldest);
    counts::apply(table, oldest);
    unname_packet(table, oldest);
    if stays_root(table, watched) {
        marks::clear(scratch, capacity);
        return 0;
    }
    collect_from(table, watched, scratch)
}

// One step, for any table, queue and scratch. The queue is copied once, into `rest`, and the oldest packet taken out of it there.
// The questions are asked of `rest`: where the queue itself is lent to them it is copied twice more.
// Kept: one exit, in place of `?` and early ones: each further exit copies the queue once more, and an idle step takes 700 instructions for 419.
pub fn step(table: &mut [u16], queue: Queue, scratch: &mut [u16]) -> Stepped
    ensures { Steps table.old queue scratch.old result table.new scratch.new }
{
    let mut rest = queue;
    let asked = questions::lent(table, &rest, scratch);
    let mut answer = Ok(Step::Idle);
    match asked {
        Err(refusal) => answer = Err(refusal),
        Ok(()) => {
            if 0 < rest.count {
                let j = rest.place as usize;
                let kind = rest.kinds[j];
                let a = rest.a[j];
                let b = rest.b[j];
                let c = rest.c[j];
                rest.kinds[j] = 0;
                rest.a[j] = 0;
                rest.b[j] = 0;
                rest.c[j] = 0;
                rest.place = (rest.place + 1) % Queue::SLOTS;
                rest.count -= 1;
                let freed = apply_oldest(table, Packet { kind, a, b, c }, scratch);
                answer = Ok(Step::Applied { kind, freed });
            }
        }
    }
    Stepped {
        answer,
        queue: rest,
    }
}
