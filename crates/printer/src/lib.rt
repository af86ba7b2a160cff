// The text of a word (document 02, A4): measured first, so that nothing is written where it does not fit, then written.
#![tactic(auto)]

mod pieces;
mod walk;

ghost use Rattle.std.specs.Prelude.{◌≡◌, ◌≤◌, length};
ghost use Rattle.machine.specs.Table.{capacity, table_length};
ghost use Rattle.machine.specs.Texts.{text_for};
ghost use Rattle.printer.specs.Measures.{measured, Exact, PutText};

use crate::pieces::{put_piece, width};
use crate::walk::{MOST_OPEN, Step, next, start};

// What is met first in a text that does not fit: a bracket too many, or a byte without room.
#[derive(Clone, Copy, PartialEq, Eq)]
pub enum Unfit {
    TooDeep,
    NoRoom,
}

// How many bytes a text has.
pub fn measure(table: &[u16], word: u16, room: usize) -> Result<usize, Unfit>
    requires { table_length (capacity table.now) ≤ length table.now }
    ensures { result ≡ measured room (text_for room table.now word) }
{
    let mut rests = [0u16; MOST_OPEN];
    let mut left = room;
    let mut walk = start(word);
    loop {
        let step = next(table, &mut rests, walk);
        match step {
            Step::Ended => return Ok(room - left),
            Step::TooDeep => return Err(Unfit::TooDeep),
            Step::Next(piece, after) => {
                let n = width(piece);
                if left < n {
                    return Err(Unfit::NoRoom);
                }
                left -= n;
                walk = after;
            }
        }
    }
}

// The text into a part of just its length.
pub fn fill(table: &[u16], word: u16, part: &mut [u8])
    requires { (table_length (capacity table.now) ≤ length table.now) × Exact (length part.old) table.now word }
    ensures { part.new ≡ text_for (length part.old) table.now word }
{
    let mut rests = [0u16; MOST_OPEN];
    let mut at = 0;
    let mut walk = start(word);
    loop {
        let step = next(table, &mut rests, walk);
        match step {
            Step::Next(piece, after) => {
                at = put_piece(part, at, piece);
                walk = after;
            }
            Step::Ended => return,
            Step::TooDeep => return,
        }
    }
}

// The text into the front of a buffer. Where it does not fit, nothing is written.
pub fn put_text(table: &[u16], word: u16, buffer: &mut [u8]) -> Result<usize, Unfit>
    requires { table_length (capacity table.now) ≤ length table.now }
    ensures { PutText table.now word buffer.old buffer.new result }
{
    let n = measure(table, word, buffer.len())?;
    fill(table, word, &mut buffer[..n]);
    Ok(n)
}
