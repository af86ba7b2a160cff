// From a line's bytes to what it asks for.
ghost use Rattle.std.specs.Prelude.{◌≡◌, ◌∷◌};
ghost use Rattle.std.specs.Str.{bytes_eq};
ghost use Rattle.base_ten.specs.Bytes.{words_of};
ghost use Rattle.line_text.specs.Requests.{operand_of, with_one, with_two, if_one, if_both, by_words, request_of};

use crate::Request;
use base_ten::bytes::split_once;
use base_ten::numbers::number;
use machine::RowCall;

// The most bytes of a line, its line feed not counted.
pub const MOST_BYTES: usize = 80;

// The largest operand.
const MOST_OPERAND: u32 = u16::MAX as u32;

// Kept: `==` on slices takes 38 instructions more for each word of the right length, and a line of the session 765 in the place of 707.
fn same(a: &[u8], b: &[u8]) -> bool
    ensures { result ≡ bytes_eq a.now b.now }
{
    if a.len() != b.len() {
        return false;
    }
    for i in 0..a.len() {
        if a[i] != b[i] {
            return false;
        }
    }
    true
}

#[tactic(auto, unfolding(crate::specs::Requests::with_one))]
fn with_one(word: &[u8], x: u16) -> Option<Request>
    ensures { result ≡ with_one word.now x }
{
    if same(word, b"fresh") {
        Some(Request::Fresh(x))
    } else if same(word, b"car") {
        Some(Request::Row(RowCall::Car(x)))
    } else if same(word, b"cdr") {
        Some(Request::Row(RowCall::Cdr(x)))
    } else {
        None
    }
}

#[tactic(auto, unfolding(crate::specs::Requests::with_two))]
fn with_two(word: &[u8], x: u16, y: u16) -> Option<Request>
    ensures { result ≡ with_two word.now x y }
{
    if same(word, b"cons") {
        Some(Request::Row(RowCall::Cons(x, y)))
    } else if same(word, b"setl") {
        Some(Request::Row(RowCall::SetLeft(x, y)))
    } else if same(word, b"setr") {
        Some(Request::Row(RowCall::SetRight(x, y)))
    } else if same(word, b"up") {
        Some(Request::Row(RowCall::Up(x, y)))
    } else if same(word, b"down") {
        Some(Request::Row(RowCall::Down(x, y)))
    } else {
        None
    }
}

fn operand(word: &[u8]) -> Option<u16>
    ensures { result ≡ operand_of word.now }
{
    let x = number(word, MOST_OPERAND)?;
    Some(x as u16)
}

fn if_one(word: &[u8], a: Option<u16>) -> Option<Request>
    ensures { result ≡ if_one word.now a }
{
    with_one(word, a?)
}

fn if_both(word: &[u8], a: Option<u16>, b: Option<u16>) -> Option<Request>
    ensures { result ≡ if_both word.now a b }
{
    with_two(word, a?, b?)
}

// After the keyword, an operand's word and a space.
fn second_operand(word: &[u8], first: &[u8], rest: &[u8]) -> Option<Request>
    ensures { result ≡ by_words (word.now ∷ first.now ∷ words_of rest.now) }
{
    match split_once(rest, b' ') {
        None => if_both(word, operand(first), operand(rest)),
        Some(_) => None,
    }
}

// After the keyword and a space.
fn operands(word: &[u8], rest: &[u8]) -> Option<Request>
    ensures { result ≡ by_words (word.now ∷ words_of rest.now) }
{
    match split_once(rest, b' ') {
        None => if_one(word, operand(rest)),
        Some((first, others)) => second_operand(word, first, others),
    }
}

// The one call without an operand is told before a space is looked for.
pub fn parse(line: &[u8]) -> Option<Request>
    ensures { result ≡ request_of line.now }
{
    if MOST_BYTES < line.len() {
        return None;
    }
    if same(line, b"step") {
        return Some(Request::Step);
    }
    match split_once(line, b' ') {
        None => None,
        Some((word, rest)) => operands(word, rest),
    }
}
