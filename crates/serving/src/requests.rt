// Requests served by the store. The queue is large: it is lent, and changed where it stands.
ghost use Rattle.std.specs.Prelude.{List, ℕ};
ghost use Rattle.machine.specs.Calls.{store};
ghost use Rattle.line_text.specs.declared.Request;
ghost use Rattle.serving.specs.Serving.{Good, served, served_line, Serves};

use crate::{fresh_verdict, row_verdict, step_verdict};
use line_text::{Request, Verdict};
use machine::{Queue, RowCall};

// Each kind of request has a function of its own, so that only its own reply takes room and time on the stack.
#[inline]
fn serve_fresh(table: &mut [u16], queue: &mut Queue, cells: u16) -> Verdict
    ensures { (scratch : List ℕ) → Good table.old queue.old
        → Serves (served (store table.old queue.old scratch) (Request.Fresh cells)) result (store table.new queue.new scratch) }
{
    let reply = store::fresh(table, *queue, cells);
    *queue = reply.queue;
    fresh_verdict(reply.answer)
}

#[inline]
fn serve_row(table: &mut [u16], queue: &mut Queue, call: RowCall) -> Verdict
    ensures { (scratch : List ℕ) → Good table.old queue.old
        → Serves (served (store table.old queue.old scratch) (Request.Row call)) result (store table.new queue.new scratch) }
{
    let reply = store::row(table, *queue, call);
    *queue = reply.queue;
    row_verdict(reply.answer)
}

#[inline]
fn serve_step(table: &mut [u16], queue: &mut Queue, scratch: &mut [u16]) -> Verdict
    ensures { Good table.old queue.old
        → Serves (served (store table.old queue.old scratch.old) Request.Step) result (store table.new queue.new scratch.new) }
{
    let reply = store::step(table, *queue, scratch);
    *queue = reply.queue;
    step_verdict(reply.answer)
}

#[inline]
pub fn serve(table: &mut [u16], queue: &mut Queue, scratch: &mut [u16], request: Request) -> Verdict
    ensures { Good table.old queue.old
        → Serves (served (store table.old queue.old scratch.old) request) result (store table.new queue.new scratch.new) }
{
    match request {
        Request::Fresh(cells) => serve_fresh(table, queue, cells),
        Request::Row(call) => serve_row(table, queue, call),
        Request::Step => serve_step(table, queue, scratch),
    }
}

// A line that asks for nothing leaves the store as it is.
#[inline]
pub fn serve_line(
    table: &mut [u16],
    queue: &mut Queue,
    scratch: &mut [u16],
    asked: Option<Request>,
) -> Verdict
    ensures { Good table.old queue.old
        → Serves (served_line (store table.old queue.old scratch.old) asked) result (store table.new queue.new scratch.new) }
{
    match asked {
        Some(request) => serve(table, queue, scratch, request),
        None => Verdict::Bad,
    }
}
