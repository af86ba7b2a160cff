// Fresh and the seven row calls, for any table, queue and numbers. Every row call but a read of nil goes the same way: its questions are asked, its packet
// joins the queue, and only if no question says "no" it writes into the table and its packet's cells are named there. The early questions, 1 to 5 and 14, look
// at no packet, so a call that one of them refuses hands the queue back as it came; the others are asked of the queue that the packet is to join, so that it is
// copied once for both.
#![tactic(auto)]

mod chain;
mod early;
mod late;
mod operands;
mod packets;
mod tests;
mod writes;

ghost use Rattle.std.specs.Prelude.{◌≡◌, Err};
ghost use Rattle.machine.specs.Calls.{car, cdr, cons, set_left, set_right, up, down};
ghost use Rattle.machine.specs.Facts.{Shape};
ghost use Rattle.machine.specs.Answers.{call_of};
ghost use Rattle.queue.specs.Sums.{packet_of};
ghost use Rattle.calls.specs.Packets.{Operands};
ghost use Rattle.calls.specs.Called.{EarlyYes, Queued, NilRead, RowCalled, FreshCalled};

use chain::make_chain;
use counts::names::name_packet;
use early::early_asked;
use late::late_asked;
use machine::{FreshAnswer, Queue, Refusal, RowAnswer, RowCall};
use packets::{packet_of, value_of};
use queue::Packet;
use writes::write;

// A row call's answer beside the queue.
#[derive(Clone, Copy)]
pub struct RowReply {
    pub answer: RowAnswer,
    pub queue: Queue,
}

// A fresh's answer beside the queue.
#[derive(Clone, Copy)]
pub struct FreshReply {
    pub answer: FreshAnswer,
    pub queue: Queue,
}

// It takes any header and queue, however damaged.
pub fn fresh(table: &mut [u16], queue: Queue, c: u16) -> FreshReply
    ensures { FreshCalled table.old queue c result.answer table.new result.queue }
{
    if !questions::cells_in_range(c) {
        return FreshReply {
            answer: Err(Refusal::NumberOutOfRange),
            queue: queue,
        };
    }
    if !questions::long_enough(c, table) {
        return FreshReply {
            answer: Err(Refusal::StoreOutOfRange),
            queue: queue,
        };
    }
    make_chain(table, c);
    FreshReply {
        answer: Ok(()),
        queue: Queue::empty(),
    }
}

// A question said "no": the queue goes back as it came.
fn refused(queue: Queue, refusal: Refusal) -> RowReply
    ensures { (result.answer ≡ Err refusal) × (result.queue ≡ queue) }
{
    RowReply {
        answer: Err(refusal),
        queue: queue,
    }
}

// Once the early questions have said "yes": the others are asked, and the packet joins the queue.
fn queued(table: &[u16], queue: Queue, packet: Packet) -> RowReply
    requires { Shape table.now queue × Operands table.now (packet_of packet) }
    ensures { Queued table.now queue (packet_of packet) result.answer result.queue }
{
    let mut next = queue;
    let place = next.place;
    let count = next.count;
    let asked = late_asked(table, &next, packet);
    if let Ok(()) = asked {
        let j = queue::slot_after(place, count);
        next.kinds[j] = packet.kind;
        next.a[j] = packet.a;
        next.b[j] = packet.b;
        next.c[j] = packet.c;
        next.count = count + 1;
    }
    let value = value_of(packet);
    let answer = asked.and(Ok(value));
    RowReply {
        answer: answer,
        queue: next,
    }
}

// The end of a list: only question 1 can refuse a read of nil, and no packet is looked at.
fn nil_read(table: &[u16], queue: Queue) -> RowReply
    ensures { NilRead table.now queue result.answer result.queue }
{
    if questions::in_range(table, &queue) {
        return RowReply {
            answer: Ok(0),
            queue: queue,
        };
    }
    refused(queue, Refusal::StoreOutOfRange)
}

// Once the early questions have said "yes" of the call, whose packet is given: where the others do too, the call writes, and its packet names its cells.
fn queue_and_write(table: &mut [u16], queue: Queue, call: RowCall, packet: Packet) -> RowReply
    requires { EarlyYes table.old queue (call_of call) (packet_of packet) }
    ensures { RowCalled table.old queue (call_of call) result.answer table.new result.queue }
{
    let reply = queued(table, queue, packet);
    let answer = reply.answer;
    if let Ok(_) = answer {
        write(table, call);
        name_packet(table, packet);
    }
    reply
}

// Any row call.
pub fn row(table: &mut [u16], queue: Queue, call: RowCall) -> RowReply
    ensures { RowCalled table.old queue (call_of call) result.answer table.new result.queue }
{
    if questions::reads_nil(call) {
        return nil_read(table, queue);
    }
    let asked = early_asked(table, &queue, call);
    match asked {
        Err(refusal) => refused(queue, refusal),
        Ok(()) => {
            let packet = packet_of(table, call);
            queue_and_write(table, queue, call, packet)
        }
    }
}

pub fn car(table: &mut [u16], queue: Queue, x: u16) -> RowReply
    ensures { RowCalled table.old queue (car x) result.answer table.new result.queue }
{
    row(table, queue, RowCall::Car(x))
}

pub fn cdr(table: &mut [u16], queue: Queue, x: u16) -> RowReply
    ensures { RowCalled table.old queue (cdr x) result.answer table.new result.queue }
{
    row(table, queue, RowCall::Cdr(x))
}

pub fn cons(table: &mut [u16], queue: Queue, x: u16, y: u16) -> RowReply
    ensures { RowCalled table.old queue (cons x y) result.answer table.new result.queue }
{
    row(table, queue, RowCall::Cons(x, y))
}

pub fn set_left(table: &mut [u16], queue: Queue, x: u16, y: u16) -> RowReply
    ensures { RowCalled table.old queue (set_left x y) result.answer table.new result.queue }
{
    row(table, queue, RowCall::SetLeft(x, y))
}

pub fn set_right(table: &mut [u16], queue: Queue, x: u16, y: u16) -> RowReply
    ensures { RowCalled table.old queue (set_right x y) result.answer table.new result.queue }
{
    row(table, queue, RowCall::SetRight(x, y))
}

pub fn up(table: &mut [u16], queue: Queue, x: u16, n: u16) -> RowReply
    ensures { RowCalled table.old queue (up x n) result.answer table.new result.queue }
{
    row(table, queue, RowCall::Up(x, n))
}

pub fn down(table: &mut [u16], queue: Queue, x: u16, n: u16) -> RowReply
    ensures { RowCalled table.old queue (down x n) result.answer table.new result.queue }
{
    row(table, queue, RowCall::Down(x, n))
}
