// The first "no" among questions 6 to 10, by the operands' sums alone.
ghost use Rattle.std.specs.Prelude.{◌≡◌, suc, ◌≤◌};
ghost use Rattle.machine.specs.Queue.{slots};
ghost use Rattle.machine.specs.Answers.{asked_number};
ghost use Rattle.queue.specs.Sums.{Bounded};
ghost use Rattle.calls.specs.Tally.{read_number, cons_number, replace_number, up_number, down_number};

use machine::{Asked, Queue, Refusal};
use queue::Sums;

// Of a read of x that gives w; same is 1 where the two are one word, else 0.
pub fn read_tests(queue: &Queue, x: Sums, w: Sums, same: u32) -> Asked
    requires { Bounded (suc slots) x × Bounded (suc slots) w × (same ≤ 1) }
    ensures { asked_number result ≡ read_number queue.now x w same }
{
    if !x.held.at_least(1) {
        return Err(Refusal::NotHeld);
    }
    if !questions::slot_empty(queue) {
        return Err(Refusal::QueueFull);
    }
    if !w.held.within(1, same) {
        return Err(Refusal::HeldCountTooHigh);
    }
    Ok(())
}

// Of a cons of x and y with this first free cell.
pub fn cons_tests(queue: &Queue, x: Sums, y: Sums, same: u32, first: u16) -> Asked
    requires { Bounded (suc slots) x × Bounded (suc slots) y × (same ≤ 1) }
    ensures { asked_number result ≡ cons_number queue.now x y same first }
{
    let times = 1 + same;
    if !x.held.at_least(times) {
        return Err(Refusal::NotHeld);
    }
    if !y.held.at_least(times) {
        return Err(Refusal::NotHeld);
    }
    if !questions::slot_empty(queue) {
        return Err(Refusal::QueueFull);
    }
    if first == 0 {
        return Err(Refusal::NoFreeCell);
    }
    if !x.pointers.within(times, 0) {
        return Err(Refusal::TooManyPointers);
    }
    if !y.pointers.within(times, 0) {
        return Err(Refusal::TooManyPointers);
    }
    Ok(())
}

// Of a replace in x by y; kept is 1 where y is the word detached, else 0.
pub fn replace_tests(queue: &Queue, y: Sums, x: Sums, same: u32, kept: u32) -> Asked
    requires { Bounded (suc slots) y × Bounded (suc slots) x × (same ≤ 1) × (kept ≤ 1) }
    ensures { asked_number result ≡ replace_number queue.now y x same kept }
{
    let times = 1 + same;
    if !y.held.at_least(times) {
        return Err(Refusal::NotHeld);
    }
    if !x.held.at_least(times) {
        return Err(Refusal::NotHeld);
    }
    if !questions::slot_empty(queue) {
        return Err(Refusal::QueueFull);
    }
    if !y.pointers.within(1, kept) {
        return Err(Refusal::TooManyPointers);
    }
    Ok(())
}

pub fn up_tests(queue: &Queue, x: Sums, n: u16) -> Asked
    requires { Bounded (suc slots) x }
    ensures { asked_number result ≡ up_number queue.now x n }
{
    if !x.held.at_least(1) {
        return Err(Refusal::NotHeld);
    }
    if !questions::slot_empty(queue) {
        return Err(Refusal::QueueFull);
    }
    if !x.held.within(n as u32, 0) {
        return Err(Refusal::HeldCountTooHigh);
    }
    Ok(())
}

pub fn down_tests(queue: &Queue, x: Sums, n: u16) -> Asked
    requires { Bounded (suc slots) x }
    ensures { asked_number result ≡ down_number queue.now x n }
{
    if !x.held.at_least(n as u32) {
        return Err(Refusal::NotHeld);
    }
    if !questions::slot_empty(queue) {
        return Err(Refusal::QueueFull);
    }
    Ok(())
}
