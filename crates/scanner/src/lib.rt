// Judges a rule text before anything is built.
#![tactic(auto)]

mod lists;
mod modes;
pub mod tokens;

ghost use Rattle.std.specs.Prelude.{◌≡◌};
ghost use Rattle.scanner.specs.Scans.{scan_of};

use lists::Scan;

// The most bytes of a text.
const MOST_TEXT: usize = 4096;

// Why no tree is built of a text.
#[derive(Clone, Copy, Debug, PartialEq, Eq)]
pub enum Fault {
    // Outside the notation, or too long.
    Outside,
    // More than 32 brackets are open together.
    TooDeep,
}

// The tree that a text means: how many pairs it has, and the largest value of its atoms, 0 where it has none.
#[derive(Clone, Copy)]
pub struct Measure {
    pub pairs: u16,
    pub largest: u16,
}

// One pass, token by token.
pub fn scan(text: &[u8]) -> Result<Measure, Fault>
    ensures { result ≡ scan_of text.now }
{
    if MOST_TEXT < text.len() {
        return Err(Fault::Outside);
    }
    let mut words = [0u64; modes::WORDS];
    let mut s = Scan::start();
    // Kept: a step is as long as the token is, and no `for` has such steps.
    while s.at < text.len() {
        let Some(next) = s.take_token(text, &mut words) else {
            return Err(Fault::Outside);
        };
        s = next;
    }
    s.judge()
}
