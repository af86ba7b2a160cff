// A line's letter and numbers, and what they are: a call or a text.
ghost use Rattle.std.specs.Prelude.{◌≡◌, ◌<◌, ◌≤◌, ◌+◌, [], drop, length, MatchOption};
ghost use Rattle.state_lines.specs.Sizes.{line_numbers, text_size};
ghost use Rattle.state_lines.specs.Lines.{Behind};

use crate::lines::TABLE;
use std::fmt;

// The bytes of the longest list.
const INPUT: usize = 3670016;

// Kept: (c) an array this long in the programs' own `main`, where the checker runs out of stack at the goal `slice_bounds-read_full-end`; behind a call it is
// its length alone.
pub fn input_array() -> [u8; INPUT]
    ensures { 3670016 ≡ length result }
{
    [0; INPUT]
}

// The longest text that a list reads, and the longest buffer that it writes into, with some room.
pub const TEXT: usize = 20480;

pub fn text_array() -> [u8; TEXT]
    ensures { text_size ≡ length result }
{
    [0; TEXT]
}

// The numbers of the longest line: the length, the number of runs and a run for each word of a table.
const MOST: usize = 2 + 2 * TABLE;

// The numbers of a line, at the front of an array.
#[derive(Drop)]
pub struct Numbers {
    numbers: [u16; MOST],
    count: usize,
    ghost room: { line_numbers ≡ length numbers + 1 },
    ghost within: { count ≤ length numbers },
}

impl Numbers {
    pub fn new() -> Numbers {
        Numbers {
            numbers: [0; MOST],
            count: 0,
        }
    }

    pub fn as_slice(&self) -> &[u16] {
        &self.numbers[..self.count]
    }

    // Each space begins a number, for which there may be no room; any other byte is a digit of the last number, which goes by the byte's lower half.
    fn take(&mut self, b: u8) {
        if b == b' ' {
            if self.count < MOST {
                self.numbers[self.count] = 0;
                self.count += 1;
            }
        } else if 0 < self.count {
            let i = self.count - 1;
            self.numbers[i] = self.numbers[i]
                .wrapping_mul(10)
                .wrapping_add(u16::from(b % 16));
        }
    }

    // The letter of the input's first line, whose numbers these become, and the input behind that line; nothing at the end of the input.
    pub fn read<'i>(&mut self, input: &'i [u8]) -> Option<(u8, &'i [u8])>
        ensures { MatchOption result (input.now ≡ []) (λ line. Behind input.now line.1.now) }
    {
        let (letter, rest) = input.split_first()?;
        self.count = 0;
        for (i, b) in rest.iter().enumerate() {
            if *b == b'\n' {
                return Some((*letter, &rest[i + 1..]));
            }
            self.take(*b);
        }
        Some((*letter, &[]))
    }
}

// A call by its code and its operands, 0 where the line has fewer: of reading a text p is its length, of writing one p, q and r are the word, the room and
// the byte that the buffer is filled with before.
#[derive(Clone, Copy)]
pub struct Call {
    pub code: u16,
    pub p: u16,
    pub q: u16,
    pub r: u16,
}

impl Call {
    // The codes of reading and of writing a text.
    pub const READ: u16 = 10;

    pub const WRITE: u16 = 11;
}

impl From<&[u16]> for Call {
    fn from(numbers: &[u16]) -> Call {
        let number = |i: usize| numbers.get(i).copied().unwrap_or(0);
        Call {
            code: number(0),
            p: number(1),
            q: number(2),
            r: number(3),
        }
    }
}

// The numbers that the call's line is written with: those of a text's bytes are left out.
impl fmt::Display for Call {
    fn fmt<W: fmt::Write>(&self, f: &mut fmt::Formatter<W>) -> fmt::Result {
        let Call { code, p, q, r } = *self;
        match code {
            Call::READ => write!(f, "{code} {p}"),
            Call::WRITE => write!(f, "{code} {p} {q} {r}"),
            _ => write!(f, "{code} {p} {q}"),
        }
    }
}

// The bytes of the text that a call's numbers have behind its code and its length, as many as there is room for.
pub fn text_of<'t>(numbers: &[u16], text: &'t mut [u8]) -> &'t mut [u8]
    ensures { length result.now ≤ length text.old }
{
    let bytes = numbers.get(2..).unwrap_or(&[]);
    let n = bytes.len().min(text.len());
    for (byte, number) in text.iter_mut().zip(bytes) {
        *byte = (*number % 256) as u8;
    }
    &mut text[..n]
}
