// The twelve calls over a list of stores and calls, with every reply and what each call left: the expected output is the reference's.
#![tactic(auto)]

use calls::RowReply;
use machine::{LengthAnswer, Queue, Refusal};
use state_lines::{Call, Numbers, Reply, Runs, Shown, Store};
use std::io;

// The calls with their operands; the text that is read, or the buffer that is written into, is lent beside them.
#[derive(Clone, Copy)]
enum Case {
    Fresh(u16),
    Car(u16),
    Cdr(u16),
    Cons(u16, u16),
    SetLeft(u16, u16),
    SetRight(u16, u16),
    Up(u16, u16),
    Down(u16, u16),
    Step,
    Audit,
    Read,
    Write(u16),
}

// A code that no call has is refused.
impl TryFrom<Call> for Case {
    type Error = Refusal;

    fn try_from(call: Call) -> Result<Case, Refusal> {
        let Call { code, p, q, .. } = call;
        match code {
            0 => Ok(Case::Fresh(p)),
            1 => Ok(Case::Car(p)),
            2 => Ok(Case::Cdr(p)),
            3 => Ok(Case::Cons(p, q)),
            4 => Ok(Case::SetLeft(p, q)),
            5 => Ok(Case::SetRight(p, q)),
            6 => Ok(Case::Up(p, q)),
            7 => Ok(Case::Down(p, q)),
            8 => Ok(Case::Step),
            9 => Ok(Case::Audit),
            Call::READ => Ok(Case::Read),
            Call::WRITE => Ok(Case::Write(p)),
            _ => Err(Refusal::NumberOutOfRange),
        }
    }
}

fn row(done: RowReply) -> (Reply, Queue) {
    (Reply::from(done.answer), done.queue)
}

fn fresh(table: &mut [u16], queue: Queue, c: u16) -> (Reply, Queue) {
    let done = store::fresh(table, queue, c);
    (Reply::from(done.answer), done.queue)
}

fn step(table: &mut [u16], queue: Queue, scratch: &mut [u16]) -> (Reply, Queue) {
    let done = store::step(table, queue, scratch);
    (Reply::from(done.answer), done.queue)
}

fn audit(table: &[u16], queue: Queue, scratch: &mut [u16]) -> (Reply, Queue) {
    let answer = store::audit(table, queue, scratch);
    (Reply::from(answer), queue)
}

// The text is put, and then written over itself by the call that hands back the part which it fills: the two must agree on its length.
fn write(table: &[u16], queue: Queue, word: u16, buffer: &mut [u8]) -> (Reply, Queue) {
    let put = store::put_text(table, queue, word, buffer);
    let handed = store::write_text(table, queue, word, buffer).len();
    (Reply::from(agreed(put, handed)), queue)
}

// What put_text told, where the part handed back is as long; else a refusal that no writing has.
fn agreed(put: LengthAnswer, handed: usize) -> LengthAnswer {
    if put.unwrap_or(0) == handed {
        put
    } else {
        Err(Refusal::NumberOutOfRange)
    }
}

fn make(
    case: Case,
    table: &mut [u16],
    queue: Queue,
    scratch: &mut [u16],
    bytes: &mut [u8],
) -> (Reply, Queue) {
    match case {
        Case::Fresh(c) => fresh(table, queue, c),
        Case::Car(x) => row(store::car(table, queue, x)),
        Case::Cdr(x) => row(store::cdr(table, queue, x)),
        Case::Cons(x, y) => row(store::cons(table, queue, x, y)),
        Case::SetLeft(x, y) => row(store::set_left(table, queue, x, y)),
        Case::SetRight(x, y) => row(store::set_right(table, queue, x, y)),
        Case::Up(x, n) => row(store::up(table, queue, x, n)),
        Case::Down(x, n) => row(store::down(table, queue, x, n)),
        Case::Step => step(table, queue, scratch),
        Case::Audit => audit(table, queue, scratch),
        Case::Read => row(store::read_text(table, queue, bytes)),
        Case::Write(word) => write(table, queue, word, bytes),
    }
}

// The bytes that a call is lent: the text that it reads, or the buffer that it writes into, every byte of which is r before. No list asks for a longer
// buffer than there is.
fn bytes_of<'t>(call: Call, numbers: &[u16], text: &'t mut [u8]) -> &'t mut [u8] {
    if call.code == Call::READ {
        return state_lines::text_of(numbers, text);
    }
    let room = usize::from(call.q).min(text.len());
    let buffer = &mut text[..room];
    if call.code == Call::WRITE {
        buffer.fill((call.r % 256) as u8);
    }
    buffer
}

// Makes a call, and writes what came of it; of writing a text that is shown the buffer too.
fn take_call<W: io::Write>(
    writer: &mut W,
    shown: Shown,
    numbers: &[u16],
    store: &mut Store,
    text: &mut [u8],
) {
    let call = Call::from(numbers);
    let bytes = bytes_of(call, numbers, text);
    let reply = match Case::try_from(call) {
        Ok(case) => store.call(|table, queue, scratch| make(case, table, queue, scratch, bytes)),
        Err(refusal) => Reply::Refused(refusal),
    };
    state_lines::write_call(writer, shown, call, reply, store);
    if call.code == Call::WRITE && shown != Shown::Undecided {
        let _ = writeln!(writer, "F {}", Runs(bytes));
    }
}

fn run<W: io::Write>(writer: &mut W, input: &[u8]) {
    let mut numbers = Numbers::new();
    let mut store = Store::new();
    let mut text = state_lines::text_array();
    let mut rest = input;
    while let Some((letter, next)) = numbers.read(rest) {
        match Shown::try_from(letter) {
            Ok(shown) => take_call(writer, shown, numbers.as_slice(), &mut store, &mut text),
            Err(_) => store.change(letter, numbers.as_slice()),
        }
        rest = next;
    }
}

fn main(rt: HostRuntime) {
    let mut input = state_lines::input_array();
    let n = streams::read_full(&mut rt.stdin(), &mut input);
    run(&mut rt.stdout(), &input[..n]);
}
