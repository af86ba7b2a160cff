// The kinds of the open lists as a stack of modes, two bits each: 64 words have room for 2,048. A mode goes on a word as a last digit in base four.
ghost use Rattle.std.specs.Prelude.{◌≡◌, ◌≤◌, ◌<◌};
ghost use Rattle.scanner.specs.Modes.{digit, most_modes, Stacked, Pushed, Popped};

const IN_WORD: usize = 32;

pub const WORDS: usize = 64;

pub const MOST: usize = 2048;

// What an open list has.
#[derive(Clone, Copy, Debug, PartialEq, Eq)]
pub enum Mode {
    // No elements.
    Empty,
    // Elements.
    Started,
    // Elements and a dot.
    Dotted,
    // The part behind its dot.
    Full,
}

impl Mode {
    fn digit(self) -> u64
        ensures { result ≡ digit self }
    {
        match self {
            Mode::Empty => 0,
            Mode::Started => 1,
            Mode::Dotted => 2,
            Mode::Full => 3,
        }
    }

    fn of_digit(d: u64) -> Mode
        requires { d < 4 }
        ensures { digit result ≡ d }
    {
        match d {
            0 => Mode::Empty,
            1 => Mode::Started,
            2 => Mode::Dotted,
            _ => Mode::Full,
        }
    }
}

pub fn push(words: &mut [u64; WORDS], count: usize, mode: Mode)
    requires { (count < most_modes) × Stacked count words.old }
    ensures { Pushed count (digit mode) words.old words.new }
{
    let at = count / IN_WORD;
    let word = words[at];
    words[at] = 4 * word + mode.digit();
}

pub fn pop(words: &mut [u64; WORDS], count: usize) -> Mode
    requires { (1 ≤ count) × (count ≤ most_modes) × Stacked count words.old }
    ensures { Popped count (digit result) words.old words.new }
{
    let at = (count - 1) / IN_WORD;
    let word = words[at];
    words[at] = word / 4;
    Mode::of_digit(word % 4)
}
