// S4: undo the packets newest first. A replaced field must hold a, and gets b; a new cell must hold a and b, and gets nil twice. At no stage do
// more than 4,095 pointers meet one cell; at the end the cell counts are the pointers found.
#![tactic(auto)]

mod earlier;
mod pointers;

ghost use Rattle.std.specs.Prelude.{◌<◌, ◌≤◌};
ghost use Rattle.machine.specs.Table.{right};
ghost use Rattle.machine.specs.Queue.{waiting};
ghost use Rattle.machine.specs.Packets.{makes, replaces};
ghost use Rattle.machine.specs.Audit.{pointers_sound};
ghost use Rattle.audit_packets.specs.Answers.{Audits};
ghost use Rattle.audit_pointers.specs.UndoStages.{UsedCell, Stageable, Undoing, Undoable, UndoesKind, UndoesPacket};

use crate::earlier::stage_field;
use crate::pointers::{all_within, count_pointers, word_within};
use audit_packets::slots::packet_on;
use machine::{CellCount, Queue};
use queue::{Kind, Packet};
use scratch_counts::{counts_match, lower, raise};

fn undo_replace(
    table: &[u16],
    queue: &Queue,
    j: u16,
    k: usize,
    p: Packet,
    scratch: &mut [u16],
) -> bool
    requires { Undoable table.now queue.now j scratch.old × UsedCell table.now p.c × (k ≤ right) }
    ensures { UndoesKind table.now queue.now j (replaces k) p.a p.b p.c scratch.old scratch.new result }
{
    if stage_field(table, queue, j + 1, (p.c - 1) as usize, k) != p.a {
        return false;
    }
    let c = cells::capacity_of(table);
    raise(scratch, c, p.b);
    lower(scratch, c, p.a);
    word_within(scratch, c, p.b)
}

// Nil twice for a and b: pointers only fall.
// Kept: apart from `undo_replace`, which undoes one field and tests b's count: one function would branch on both, and be no plainer.
fn undo_cons(table: &[u16], queue: &Queue, j: u16, p: Packet, scratch: &mut [u16]) -> bool
    requires { Undoable table.now queue.now j scratch.old × UsedCell table.now p.c }
    ensures { UndoesKind table.now queue.now j makes p.a p.b p.c scratch.old scratch.new result }
{
    let index = (p.c - 1) as usize;
    let left = stage_field(table, queue, j + 1, index, cells::LEFT);
    let right = stage_field(table, queue, j + 1, index, cells::RIGHT);
    if left != p.a || right != p.b {
        return false;
    }
    let c = cells::capacity_of(table);
    lower(scratch, c, p.a);
    lower(scratch, c, p.b);
    true
}

// The packet that j older ones wait before, undone: reads, ups and downs wrote no field.
fn undo(table: &[u16], queue: &Queue, j: u16, scratch: &mut [u16]) -> bool
    requires { Undoable table.now queue.now j scratch.old }
    ensures { UndoesPacket table.now queue.now j scratch.old scratch.new result }
{
    let p = packet_on(queue, j);
    match p.known_kind() {
        Some(Kind::Cons) => undo_cons(table, queue, j, p, scratch),
        Some(Kind::ReplaceLeft) => undo_replace(table, queue, j, cells::LEFT, p, scratch),
        Some(Kind::ReplaceRight) => undo_replace(table, queue, j, cells::RIGHT, p, scratch),
        Some(Kind::Read | Kind::Up | Kind::Down) => true,
        None => true,
    }
}

fn undo_all(table: &[u16], queue: &Queue, scratch: &mut [u16]) -> bool
    requires { Undoing table.now queue.now queue.now.count scratch.old scratch.old }
    ensures { Audits table.now (pointers_sound table.now (waiting queue.now)) scratch.old scratch.new result }
{
    for j in (0..queue.count).rev() {
        if !undo(table, queue, j, scratch) {
            return false;
        }
    }
    counts_match::<CellCount>(table, scratch)
}

// Exact where S3 holds, which is asked before.
pub fn pointers_sound(table: &[u16], queue: &Queue, scratch: &mut [u16]) -> bool
    requires { Stageable table.now queue.now scratch.old }
    ensures { Audits table.now (pointers_sound table.now (waiting queue.now)) scratch.old scratch.new result }
{
    let c = cells::capacity_of(table);
    count_pointers(table, scratch, c);
    all_within(scratch, c) && undo_all(table, queue, scratch)
}
