// From an input's bytes to the workload.
ghost use Rattle.std.specs.Prelude.{◌≡◌, [], ◌∷◌};
ghost use Rattle.base_ten.specs.Bytes.{words_of};
ghost use Rattle.traffic.specs.Workload.{by_words, workload_of};

use crate::Workload;
use base_ten::bytes::split_once;
use base_ten::numbers::number;

// The largest seed.
const MOST_SEED: u32 = u32::MAX;

// The largest C, and the largest number of calls.
const MOST_COUNT: u32 = u16::MAX as u32;

#[tactic(auto, unfolding(crate::specs::Workload::by_words))]
fn run(seed: &[u8], cells: &[u8], calls: &[u8]) -> Option<Workload>
    ensures { result ≡ by_words (seed.now ∷ cells.now ∷ calls.now ∷ []) }
{
    let seed = number(seed, MOST_SEED)?;
    let cells = number(cells, MOST_COUNT)? as u16;
    let calls = number(calls, MOST_COUNT)? as u16;
    Some(Workload { seed, cells, calls })
}

// After two words and their spaces.
fn third_word(seed: &[u8], cells: &[u8], rest: &[u8]) -> Option<Workload>
    ensures { result ≡ by_words (seed.now ∷ cells.now ∷ words_of rest.now) }
{
    match split_once(rest, b' ') {
        None => run(seed, cells, rest),
        Some(_) => None,
    }
}

// After a word and its space.
fn second_word(seed: &[u8], rest: &[u8]) -> Option<Workload>
    ensures { result ≡ by_words (seed.now ∷ words_of rest.now) }
{
    match split_once(rest, b' ') {
        None => None,
        Some((cells, others)) => third_word(seed, cells, others),
    }
}

fn first_word(line: &[u8]) -> Option<Workload>
    ensures { result ≡ by_words (words_of line.now) }
{
    match split_once(line, b' ') {
        None => None,
        Some((seed, rest)) => second_word(seed, rest),
    }
}

// Nothing follows the first line feed.
pub fn workload(input: &[u8]) -> Option<Workload>
    ensures { result ≡ workload_of input.now }
{
    let Some((line, rest)) = split_once(input, b'\n') else {
        return first_word(input);
    };
    if 0 < rest.len() {
        return None;
    }
    first_word(line)
}
