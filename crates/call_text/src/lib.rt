// The line of a call, written into a lent buffer from a place on.
#![tactic(auto)]

ghost use Rattle.std.specs.Prelude.{◌+◌, ◌≤◌, length};
ghost use Rattle.base_ten.specs.Decimal.{most_digits};
ghost use Rattle.base_ten.specs.Put.{Put};
ghost use Rattle.call_text.specs.CallText.{two_text, row_text, call_text, asked_text, asked_line, call_room, line_room};

use base_ten::put::{MOST_DIGITS, put_counted, put_word};
use line_text::Request;
use machine::RowCall;

// The longest keyword with its space.
const WORD_ROOM: usize = 6;

// The most bytes of a call's line, with its line feed.
pub const LINE_ROOM: usize = WORD_ROOM + MOST_DIGITS + 1 + MOST_DIGITS + 1;

fn put_two(out: &mut [u8], at: usize, word: &[u8], x: u16, y: u16) -> usize
    requires { at + length word.now + most_digits + 1 + most_digits ≤ length out.old }
    ensures { Put out.old at (two_text word.now x y) out.new result }
{
    let end = put_counted(out, at, word, x);
    put_counted(out, end, b" ", y)
}

#[tactic(auto, unfolding(crate::specs::CallText::row_text))]
fn put_row(out: &mut [u8], at: usize, call: RowCall) -> usize
    requires { at + call_room ≤ length out.old }
    ensures { Put out.old at (row_text call) out.new result }
{
    match call {
        RowCall::Car(x) => put_counted(out, at, b"car ", x),
        RowCall::Cdr(x) => put_counted(out, at, b"cdr ", x),
        RowCall::Cons(x, y) => put_two(out, at, b"cons ", x, y),
        RowCall::SetLeft(x, y) => put_two(out, at, b"setl ", x, y),
        RowCall::SetRight(x, y) => put_two(out, at, b"setr ", x, y),
        RowCall::Up(x, n) => put_two(out, at, b"up ", x, n),
        RowCall::Down(x, n) => put_two(out, at, b"down ", x, n),
    }
}

#[tactic(auto, unfolding(crate::specs::CallText::call_text))]
fn put_call(out: &mut [u8], at: usize, request: Request) -> usize
    requires { at + call_room ≤ length out.old }
    ensures { Put out.old at (call_text request) out.new result }
{
    match request {
        Request::Fresh(c) => put_counted(out, at, b"fresh ", c),
        Request::Row(call) => put_row(out, at, call),
        Request::Step => put_word(out, at, b"step"),
    }
}

fn put_asked(out: &mut [u8], at: usize, asked: Option<Request>) -> usize
    requires { at + call_room ≤ length out.old }
    ensures { Put out.old at (asked_text asked) out.new result }
{
    match asked {
        Some(request) => put_call(out, at, request),
        None => at,
    }
}

// What is no call is an empty line.
pub fn put_call_line(out: &mut [u8], at: usize, asked: Option<Request>) -> usize
    requires { at + line_room ≤ length out.old }
    ensures { Put out.old at (asked_line asked) out.new result }
{
    let end = put_asked(out, at, asked);
    put_word(out, end, b"\n")
}
