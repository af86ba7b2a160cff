// The packet queue: where its slots lie, the packet in a slot, and the sums of waiting changes of one cell.
#![tactic(auto)]

ghost use Rattle.std.specs.Prelude.{◌≡◌, suc, ◌+◌, ◌%◌, ◌<◌, ◌≤◌};
ghost use Rattle.machine.specs.Range.{matching};
ghost use Rattle.machine.specs.Queue.{slots, placed, slot, waiting};
ghost use Rattle.machine.specs.Words.{largest_word};
ghost use Rattle.machine.specs.Packets.{kind_of};
ghost use Rattle.queue.specs.Kinds.{known_as, kind_number};
ghost use Rattle.queue.specs.Sums.{packet_of, AtMost, WithCount, at_least, at_most_ceiling, Bounded, Added, SumsOf};

use machine::{CellCount, Limited, Queue, RootCount};
use std::marker::PhantomData;

// What a slot holds.
#[derive(Clone, Copy)]
pub struct Packet {
    pub kind: u16,
    pub a: u16,
    pub b: u16,
    pub c: u16,
}

// The kinds, by the call that queues a packet.
#[derive(Clone, Copy, PartialEq, Eq)]
pub enum Kind {
    Read = 1,
    Cons = 2,
    ReplaceLeft = 3,
    Up = 4,
    Down = 5,
    ReplaceRight = 6,
}

impl Kind {
    // A damaged slot's word may be no kind's number.
    #[tactic(auto, unfolding(machine::specs::Packets::kind_of))]
    pub fn of(number: u16) -> Option<Kind>
        ensures { known_as result ≡ kind_of number }
    {
        match number {
            1 => Some(Kind::Read),
            2 => Some(Kind::Cons),
            3 => Some(Kind::ReplaceLeft),
            4 => Some(Kind::Up),
            5 => Some(Kind::Down),
            6 => Some(Kind::ReplaceRight),
            _ => None,
        }
    }

    pub fn number(self) -> u16
        ensures { result ≡ kind_number self }
    {
        self as u16
    }
}

impl Packet {
    pub fn known_kind(self) -> Option<Kind>
        ensures { known_as result ≡ kind_of self.kind }
    {
        Kind::of(self.kind)
    }
}

// The slot that lies i places after the first.
pub fn slot_after(place: u16, i: u16) -> usize
    requires { (place < slots) × (i ≤ slots) }
    ensures { (result ≡ (place + i) % slots) × (result < slots) }
{
    usize::from((place + i) % Queue::SLOTS)
}

// By how much a count of the sort K is to be raised and lowered; with the count added, what it counts is the difference.
#[derive(Clone, Copy)]
pub struct CounterSums<K> {
    pub raised: u32,
    pub lowered: u32,
    pub of: PhantomData<K>,
}

pub type HeldSums = CounterSums<RootCount>;

pub type PointerSums = CounterSums<CellCount>;

impl<K: Limited> CounterSums<K> {
    pub fn new(raised: u32, lowered: u32) -> CounterSums<K>
        ensures { (result.raised ≡ raised) × (result.lowered ≡ lowered) }
    {
        CounterSums {
            raised,
            lowered,
            of: PhantomData,
        }
    }

    // With the count itself.
    pub fn with(self, count: K) -> CounterSums<K>
        requires { AtMost slots self.raised self.lowered }
        ensures { WithCount (K.value count) self.raised self.lowered result.raised result.lowered }
    {
        CounterSums::new(u32::from(count.get()) + self.raised, self.lowered)
    }

    // Questions 9 and 10: held, or pointed to, at most 4,095 times after so many further raises and lowerings.
    pub fn within(self, more: u32, less: u32) -> bool
        requires { AtMost (suc slots) self.raised self.lowered × (more ≤ largest_word) × (less ≤ largest_word) }
        ensures { result ≡ at_most_ceiling (self.raised + more) (self.lowered + less) }
    {
        self.raised + more <= u32::from(K::CEILING) + (self.lowered + less)
    }
}

impl CounterSums<RootCount> {
    // Question 6: held n times or more.
    pub fn at_least(self, n: u32) -> bool
        requires { AtMost (suc slots) self.raised self.lowered × (n ≤ largest_word) }
        ensures { result ≡ at_least self.raised self.lowered n }
    {
        self.lowered + n <= self.raised
    }
}

// Waiting changes of one cell.
#[derive(Clone, Copy)]
pub struct Sums {
    pub held: HeldSums,
    pub pointers: PointerSums,
}

// The packet in slot j.
#[tactic(auto, unfolding(machine::specs::Queue::slot))]
pub fn packet_at(queue: &Queue, j: usize) -> Packet
    requires { j < slots }
    ensures { packet_of result ≡ slot queue.now j }
{
    Packet {
        kind: queue.kinds[j],
        a: queue.a[j],
        b: queue.b[j],
        c: queue.c[j],
    }
}

// n where the word w is x, else 0.
#[tactic(auto, unfolding(machine::specs::Range::matching))]
pub fn matched(w: u16, x: u16, n: u16) -> u32
    ensures { (result ≡ matching w x n) × (result ≤ n) }
{
    if w == x { u32::from(n) } else { 0 }
}

// The sums with one packet's changes of x added; a packet that has x neither in a nor in b changes no count of it, whatever its kind.
fn with_changes(mut s: Sums, kind: u16, a: u16, b: u16, x: u16) -> Sums
    requires { Bounded 63 s }
    ensures { Added s kind a b x result }
{
    if a != x && b != x {
        return s;
    }
    let Some(kind) = Kind::of(kind) else {
        return s;
    };
    match kind {
        Kind::Read => {
            s.held.lowered += matched(a, x, 1);
            s.held.raised += matched(b, x, 1);
        }
        Kind::Cons => {
            let both = matched(a, x, 1) + matched(b, x, 1);
            s.held.lowered += both;
            s.pointers.raised += both;
        }
        Kind::ReplaceLeft | Kind::ReplaceRight => {
            let put = matched(a, x, 1);
            s.held.lowered += put;
            s.pointers.raised += put;
            s.pointers.lowered += matched(b, x, 1);
        }
        Kind::Up => s.held.raised += matched(a, x, b),
        Kind::Down => s.held.lowered += matched(a, x, b),
    }
    s
}

// The changes of x that so many packets from the oldest on make.
pub fn waiting_changes(queue: &Queue, count: u16, x: u16) -> Sums
    requires { (queue.now.place < slots) × (count ≤ slots) }
    ensures sums { SumsOf (waiting (placed queue.now queue.now.place count)) x result }
    ensures bounded { Bounded slots result }
{
    let mut s = Sums {
        held: CounterSums::new(0, 0),
        pointers: CounterSums::new(0, 0),
    };
    for i in 0..count {
        let j = slot_after(queue.place, i);
        s = with_changes(s, queue.kinds[j], queue.a[j], queue.b[j], x);
    }
    s
}
