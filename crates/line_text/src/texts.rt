// Output lines, written into a lent buffer from a place on.
ghost use Rattle.std.specs.Prelude.{◌≡◌, ℕ, ◌+◌, ◌≤◌, length};
ghost use Rattle.base_ten.specs.Decimal.{most_digits, decimal};
ghost use Rattle.base_ten.specs.Put.{Put};
ghost use Rattle.line_text.specs.Texts.{verdict_room, verdict_text, room, output_line};
ghost use Rattle.line_text.specs.Put.{ShowsTens, Next};

use crate::Verdict;
use base_ten::put::{MOST_DIGITS, put_counted, put_digits, put_word};
use std::marker::Model;

// OK or NO and a space, before a number.
const WORD_LENGTH: usize = 3;

const VERDICT_ROOM: usize = WORD_LENGTH + MOST_DIGITS;

// The most bytes of an output line: a number, a space, a verdict, a line feed.
pub const ROOM: usize = MOST_DIGITS + 1 + VERDICT_ROOM + 1;

fn put_verdict(out: &mut [u8], at: usize, verdict: Verdict) -> usize
    requires { at + verdict_room ≤ length out.old }
    ensures { Put out.old at (verdict_text verdict) out.new result }
{
    match verdict {
        Verdict::Ok(v) => put_counted(out, at, b"OK ", v),
        Verdict::No(n) => put_counted(out, at, b"NO ", n),
        Verdict::Idle => put_word(out, at, b"IDLE"),
        Verdict::Bad => put_word(out, at, b"BAD"),
    }
}

// The number of a line, which contracts see as that number, with its digits: counting up changes other digits than the last only where it ends in 0.
#[derive(Drop)]
pub struct Count {
    number: u64,
    text: [u8; MOST_DIGITS],
    size: usize,
}

impl Model for Count {
    ghost Value = { ℕ };

    ghost view = { λ c. c.number };

    ghost invariant = { λ c. ShowsTens c.text c.size c.number };
}

impl Count {
    pub fn new(number: u64) -> Count
        ensures { result ≡ number }
    {
        let mut text = [0; MOST_DIGITS];
        let size = put_digits(&mut text, 0, MOST_DIGITS, number);
        Count { number, text, size }
    }

    // The next number. No input has so many lines that it stops.
    pub fn next(&mut self) -> u64
        ensures counts { Next self.old self.new }
        ensures told { result ≡ self.new }
    {
        if self.number < u64::MAX {
            self.number += 1;
            if self.number % 10 == 0 {
                self.size = put_digits(&mut self.text, 0, MOST_DIGITS, self.number);
            }
        }
        self.number
    }

    // All of the text is copied, which takes no test; what is past the last digit is written over.
    fn put(&self, out: &mut [u8], at: usize) -> usize
        requires { at + most_digits ≤ length out.old }
        ensures { Put out.old at (decimal self.now) out.new result }
    {
        out[at..at + MOST_DIGITS].copy_from_slice(&self.text);
        let end = at + self.size;
        out[end - 1] = b'0' + ((self.number % 10) as u8);
        end
    }
}

pub fn put_line(out: &mut [u8], at: usize, count: &Count, verdict: Verdict) -> usize
    requires { at + room ≤ length out.old }
    ensures { Put out.old at (output_line count.now verdict) out.new result }
{
    let numbered = count.put(out, at);
    let spaced = put_word(out, numbered, b" ");
    let told = put_verdict(out, spaced, verdict);
    put_word(out, told, b"\n")
}
