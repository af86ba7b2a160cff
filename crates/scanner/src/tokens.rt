// The tokens of a rule text, one by one.
ghost use Rattle.std.specs.Prelude.{◌<◌, length};
ghost use Rattle.scanner.specs.Tokens.{IsNumber, IsByte, DigitAt, DigitsEnd, TokenAt};

use base_ten::numbers::number;

// No atom has a larger value.
const LARGEST_VALUE: u32 = 32767;

#[derive(Clone, Copy)]
pub enum Token {
    // A space.
    Blank,
    Opening,
    Closing,
    Dot,
    // An atom's value.
    Number(u16),
    // A byte that has no meaning, or digits that are no value of an atom.
    Foreign,
}

// A token and the place past it.
#[derive(Clone, Copy)]
pub struct TokenRead {
    pub token: Token,
    pub next: usize,
}

// The place past the digits that stand together from a digit on.
fn digits_end(text: &[u8], at: usize) -> usize
    requires { DigitAt text.now at }
    ensures { DigitsEnd text.now at result }
{
    for i in at + 1..text.len() {
        if !text[i].is_ascii_digit() {
            return i;
        }
    }
    text.len()
}

// What digits that stand together are.
fn number_of(digits: &[u8]) -> Token
    ensures { IsNumber digits.now result }
{
    match number(digits, LARGEST_VALUE) {
        Some(v) => Token::Number(v as u16),
        None => Token::Foreign,
    }
}

// What another byte is.
#[tactic(auto, unfolding(notation::specs::Parse::with_byte))]
fn token_of(b: u8) -> Token
    ensures { IsByte b result }
{
    match b {
        b' ' => Token::Blank,
        b'(' => Token::Opening,
        b')' => Token::Closing,
        b'.' => Token::Dot,
        _ => Token::Foreign,
    }
}

pub fn token_at(text: &[u8], at: usize) -> TokenRead
    requires { at < length text.now }
    ensures { TokenAt text.now at result }
{
    let b = text[at];
    if b.is_ascii_digit() {
        let next = digits_end(text, at);
        return TokenRead {
            token: number_of(&text[at..next]),
            next,
        };
    }
    TokenRead {
        token: token_of(b),
        next: at + 1,
    }
}
