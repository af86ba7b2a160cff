// The open lists of a text, as far as judging it needs them.
ghost use Rattle.std.specs.Prelude.{◌≡◌, List, ℕ, ◌+◌, ◌≤◌, ◌<◌, length};
ghost use Rattle.notation.specs.Trees.{Tree};
ghost use Rattle.notation.specs.Grammar.{opening, closing, dot};
ghost use Rattle.notation.specs.Parse.{parse};
ghost use Rattle.scanner.specs.Modes.{Stacked};
ghost use Rattle.notation.specs.Grammar.{most_text};
ghost use Rattle.scanner.specs.Scans.{judged};
ghost use Rattle.scanner.specs.Scanning.{Locals, nothing, mark, datum, Scanning, TakenOf};

use crate::modes::Mode;
use crate::tokens::{Token, token_at};
use crate::{Fault, Measure, modes};

// At most so many brackets are open together.
const MOST_OPEN: usize = 32;

#[derive(Clone, Copy)]
pub struct Scan {
    // The tokens before this place are taken.
    pub at: usize,
    // Of the innermost open list; the modes of the others are on the stack.
    pub mode: Mode,
    // How many brackets are open.
    pub brackets: usize,
    // Too many were open together.
    pub deep: bool,
    // The pairs of what was read so far.
    pub pairs: u16,
    // The largest value of an atom so far, 0 where there was none.
    pub largest: u16,
}

// What a token leads to is a scan that may go on, or nothing, where the text is outside the notation.
impl Scan {
    // The text itself is one datum, as the part behind a dot is.
    pub fn start() -> Scan
        ensures { (text words : List ℕ) → length text ≤ most_text → Stacked 0 words → Scanning text words result nothing }
    {
        Scan {
            at: 0,
            mode: Mode::Dotted,
            brackets: 0,
            deep: false,
            pairs: 0,
            largest: 0,
        }
    }

    // One datum more in the innermost list. An element takes a pair, the part behind a dot none.
    fn deliver(self) -> Option<Scan>
        requires { self.pairs ≤ most_text }
        ensures { (text words : List ℕ) (t : Tree) → Scanning text words self (datum t) → TakenOf text words self.at result }
    {
        match self.mode {
            Mode::Full => None,
            Mode::Dotted => Some(Scan {
                mode: Mode::Full,
                ..self
            }),
            _ => Some(Scan {
                mode: Mode::Started,
                pairs: self.pairs + 1,
                ..self
            }),
        }
    }

    // A dot stands behind one element or more.
    fn put_dot(self) -> Option<Scan>
        ensures { (text words : List ℕ) → Scanning text words self (mark dot) → TakenOf text words self.at result }
    {
        match self.mode {
            Mode::Started => Some(Scan {
                mode: Mode::Dotted,
                ..self
            }),
            _ => None,
        }
    }

    // A text has too few bytes to close more brackets than the stack has room for.
    fn open_list(self, words: &mut [u64; modes::WORDS]) -> Option<Scan>
        requires { Locals words.old self }
        ensures { (text : List ℕ) → Scanning text words.old self (mark opening) → TakenOf text words.new self.at result }
    {
        if self.brackets == modes::MOST {
            return None;
        }
        modes::push(words, self.brackets, self.mode);
        Some(Scan {
            mode: Mode::Empty,
            brackets: self.brackets + 1,
            deep: self.deep || self.brackets == MOST_OPEN,
            ..self
        })
    }

    fn close_list(self, words: &mut [u64; modes::WORDS]) -> Option<Scan>
        requires { Locals words.old self }
        ensures { (text : List ℕ) → Scanning text words.old self (mark closing) → TakenOf text words.new self.at result }
    {
        if self.brackets == 0 {
            return None;
        }
        if let Mode::Dotted = self.mode {
            return None;
        }
        let outer = Scan {
            mode: modes::pop(words, self.brackets),
            brackets: self.brackets - 1,
            ..self
        };
        outer.deliver()
    }

    pub fn take_token(self, text: &[u8], words: &mut [u64; modes::WORDS]) -> Option<Scan>
        requires { Scanning text.now words.old self nothing × (self.at < length text.now) }
        ensures { TakenOf text.now words.new (self.at + 1) result }
    {
        let read = token_at(text, self.at);
        let moved = Scan {
            at: read.next,
            ..self
        };
        match read.token {
            Token::Blank => Some(moved),
            Token::Opening => moved.open_list(words),
            Token::Closing => moved.close_list(words),
            Token::Dot => moved.put_dot(),
            Token::Number(v) => {
                let largest = self.largest.max(v);
                Scan { largest, ..moved }.deliver()
            }
            Token::Foreign => None,
        }
    }

    // A text that has ended.
    pub fn judge(self) -> Result<Measure, Fault>
        ensures { (text words : List ℕ) → Scanning text words self nothing → length text ≤ self.at → result ≡ judged text (parse text) }
    {
        if self.brackets != 0 {
            return Err(Fault::Outside);
        }
        let Mode::Full = self.mode else {
            return Err(Fault::Outside);
        };
        if self.deep {
            return Err(Fault::TooDeep);
        }
        Ok(Measure {
            pairs: self.pairs,
            largest: self.largest,
        })
    }
}
