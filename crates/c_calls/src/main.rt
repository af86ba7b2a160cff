// The twelve calls of c_store, their operands by place as C hands them over: contracts go by names, so that no proof tells two operands that have changed
// places. A line has a call, its reply's three numbers, and two words that it left. The expected output is worked by hand from document 01.
#![tactic(auto)]

use c_layout::Reply;
use c_layout::queues::QUEUE_WORDS;
use std::{fmt, io};

// Left and right of cells 1 and 2 in a table, and the queue's words a and b.
const LEFT_1: usize = 3;

const RIGHT_1: usize = 4;

const LEFT_2: usize = 9;

const RIGHT_2: usize = 10;

const A: usize = 64;

const B: usize = 128;

// Two of the words, or of a buffer's bytes, are written; 0 where there is no such word.
fn put<W: io::Write, T: Copy + Default + fmt::Display>(
    writer: &mut W,
    call: &str,
    reply: Reply,
    words: &[T],
    i: usize,
    j: usize,
) {
    let Reply { tag, number, count } = reply;
    let first = words.get(i).copied().unwrap_or_default();
    let second = words.get(j).copied().unwrap_or_default();
    let _ = writeln!(writer, "{call} {tag} {number} {count} {first} {second}");
}

fn make<W: io::Write>(writer: &mut W, table: &mut [u16], queue: &mut [u16; QUEUE_WORDS]) {
    let fresh = c_store::row_fresh(table, queue, 3);
    put(writer, "fresh 3", fresh, table, 0, 2);
    let cons = c_store::row_cons(table, queue, 32769, 32770);
    put(writer, "cons 32769 32770", cons, table, LEFT_1, RIGHT_1);
    let up = c_store::row_up(table, queue, 1, 5);
    put(writer, "up 1 5", up, queue, A + 1, B + 1);
    let down = c_store::row_down(table, queue, 1, 2);
    put(writer, "down 1 2", down, queue, A + 2, B + 2);
}

fn use_cell<W: io::Write>(writer: &mut W, table: &mut [u16], queue: &mut [u16; QUEUE_WORDS]) {
    let left = c_store::row_set_left(table, queue, 1, 32771);
    put(writer, "setl 1 32771", left, table, LEFT_1, RIGHT_1);
    let right = c_store::row_set_right(table, queue, 1, 32772);
    put(writer, "setr 1 32772", right, table, LEFT_1, RIGHT_1);
    let car = c_store::row_car(table, queue, 1);
    put(writer, "car 1", car, queue, A + 5, B + 5);
    let cdr = c_store::row_cdr(table, queue, 1);
    put(writer, "cdr 1", cdr, queue, A + 6, B + 6);
}

fn pass_text<W: io::Write>(writer: &mut W, table: &mut [u16], queue: &mut [u16; QUEUE_WORDS]) {
    let read = c_store::row_read_text(table, queue, b"(7 . 8)");
    put(writer, "read (7 . 8)", read, table, LEFT_2, RIGHT_2);
    let mut buffer = [35u8; 9];
    let write = c_store::row_write_text(table, queue, 1, &mut buffer);
    put(writer, "write 1", write, &buffer, 1, 7);
}

// Four words of scratch, of which the last stays as it was.
fn collect<W: io::Write>(writer: &mut W, table: &mut [u16], queue: &mut [u16; QUEUE_WORDS]) {
    let mut scratch = [77u16; 4];
    let step = c_store::row_step(table, queue, &mut scratch);
    put(writer, "step", step, &scratch, 2, 3);
    let mut other = [77u16; 4];
    let audit = c_store::row_audit(table, queue, &mut other);
    put(writer, "audit", audit, &other, 2, 3);
}

fn main(rt: HostRuntime) {
    let mut writer = rt.stdout();
    let mut table = [0u16; 21];
    let mut queue = [0u16; QUEUE_WORDS];
    make(&mut writer, &mut table, &mut queue);
    use_cell(&mut writer, &mut table, &mut queue);
    pass_text(&mut writer, &mut table, &mut queue);
    collect(&mut writer, &mut table, &mut queue);
}
