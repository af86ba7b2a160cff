// A text's tree built by cons, token by token.
ghost use Rattle.std.specs.Prelude.{◌≡◌, List, [], ◌+◌, ◌≤◌, ◌<◌, length, get_or, take, drop};
ghost use Rattle.scanner.specs.Tokens.{marks_of_token};
ghost use Rattle.machine.specs.Calls.{store};
ghost use Rattle.machine.specs.Texts.{new_word, built_pair};
ghost use Rattle.machine.specs.Answers.{row_reply};
ghost use Rattle.reader.specs.Reading.{OpenList, reading, pairs_by, ended, closed_from, read_all};
ghost use Rattle.reader.specs.Held.{most_words, reading_in, Fits, Room};
ghost use Rattle.reader.specs.Builds.{code_cons, Leaves, Readable, Builds};

use machine::{FIRST_ATOM, Queue, RowAnswer};
use scanner::tokens::{Token, token_at};

// Enough for the words of a tree of 64 pairs while it is read.
const MOST_WORDS: usize = 65;

// So many lists can be open together.
const MOST_OPEN: usize = 32;

// The word that was built, and the queue.
#[derive(Clone, Copy)]
pub struct Built {
    pub word: u16,
    pub queue: Queue,
}

// How many words stand, how many lists are open, and the queue.
#[derive(Clone, Copy)]
struct Place {
    count: usize,
    opened: usize,
    queue: Queue,
}

// The new cell; on a sound store no cons that reading makes is refused.
fn new_word(answer: RowAnswer) -> u16
    ensures { result ≡ new_word (row_reply answer) }
{
    answer.unwrap_or(0)
}

fn pair(table: &mut [u16], queue: Queue, x: u16, y: u16) -> Built
    ensures { Leaves (built_pair (code_cons (store table.old queue []) x y)) result.word table.new result.queue }
{
    let reply = calls::cons(table, queue, x, y);
    let answer = reply.answer;
    let rest = reply.queue;
    Built {
        word: new_word(answer),
        queue: rest,
    }
}

// The pairs of a list, last to first: its elements are the words from start up to end, and the word there is the part behind them.
fn list(
    table: &mut [u16],
    queue: Queue,
    words: &[u16; MOST_WORDS],
    start: usize,
    end: usize,
) -> Built
    requires { (length words.now ≡ most_words) × (start ≤ end) × (end < most_words) }
    ensures { Leaves (pairs_by code_cons (store table.old queue []) (drop start (take end words.now)) (get_or words.now end 0))
        result.word table.new result.queue }
{
    let mut word = words[end];
    let mut rest = queue;
    for i in (start..end).rev() {
        let made = pair(table, rest, words[i], word);
        word = made.word;
        rest = made.queue;
    }
    Built {
        word: word,
        queue: rest,
    }
}

// A list without a dot ends in nil: how many words stand then.
fn end_list(words: &mut [u16; MOST_WORDS], count: usize, dotted: bool) -> usize
    requires { (length words.old ≡ most_words) × (count ≤ most_words) × (length (ended dotted (take count words.old)) ≤ most_words) }
    ensures { (length words.new ≡ most_words) × (result ≤ most_words) × (take result words.new ≡ ended dotted (take count words.old)) }
{
    if dotted {
        return count;
    }
    words[count] = 0;
    count + 1
}

// The innermost list ends, and its word stands where those of its elements began: the queue afterwards.
fn close(
    table: &mut [u16],
    queue: Queue,
    words: &mut [u16; MOST_WORDS],
    count: usize,
    start: usize,
    dotted: bool,
) -> Queue
    requires { (length words.old ≡ most_words) × (count ≤ most_words) × (start < length (ended dotted (take count words.old))) × (length (ended dotted (take count words.old)) ≤ most_words) }
    ensures { (length words.new ≡ most_words)
        × ((ls : List OpenList) → reading (take (start + 1) words.new) ls (store table.new result [])
        ≡ closed_from code_cons (store table.old queue []) start (ended dotted (take count words.old)) ls) }
{
    let end = end_list(words, count, dotted) - 1;
    let made = list(table, queue, words, start, end);
    words[start] = made.word;
    made.queue
}

fn standing(count: usize, opened: usize, queue: Queue) -> Place
    ensures { (result.count ≡ count) × (result.opened ≡ opened) × (result.queue ≡ queue) }
{
    Place {
        count: count,
        opened: opened,
        queue: queue,
    }
}

// One token read.
fn step(
    table: &mut [u16],
    queue: Queue,
    words: &mut [u16; MOST_WORDS],
    starts: &mut [usize; MOST_OPEN],
    dots: &mut [bool; MOST_OPEN],
    count: usize,
    opened: usize,
    token: Token,
) -> Place
    requires { Fits words.old count starts.old dots.old opened × Room token (reading_in words.old count starts.old dots.old opened table.old queue) }
    ensures { Fits words.new result.count starts.new dots.new result.opened
        × (reading_in words.new result.count starts.new dots.new result.opened table.new result.queue
        ≡ read_all code_cons (reading_in words.old count starts.old dots.old opened table.old queue) (marks_of_token token)) }
{
    match token {
        Token::Opening => {
            starts[opened] = count;
            dots[opened] = false;
            standing(count, opened + 1, queue)
        }
        Token::Closing => {
            let i = opened - 1;
            let start = starts[i];
            let rest = close(table, queue, words, count, start, dots[i]);
            standing(start + 1, i, rest)
        }
        Token::Dot => {
            dots[opened - 1] = true;
            standing(count, opened, queue)
        }
        Token::Number(v) => {
            words[count] = FIRST_ATOM + v;
            standing(count + 1, opened, queue)
        }
        _ => standing(count, opened, queue),
    }
}

// A text that is known to be in the notation, and with so few pairs that its words fit.
pub fn build(table: &mut [u16], queue: Queue, text: &[u8]) -> Built
    requires { Readable text.now }
    ensures { Builds table.old queue text.now result.word table.new result.queue }
{
    let mut words = [0u16; MOST_WORDS];
    let mut starts = [0usize; MOST_OPEN];
    let mut dots = [false; MOST_OPEN];
    let mut count: usize = 0;
    let mut opened: usize = 0;
    let mut rest = queue;
    let mut at: usize = 0;
    // Kept: a step is as long as the token is, and no `for` has such steps.
    while at < text.len() {
        let read = token_at(text, at);
        let token = read.token;
        let place = step(
            table,
            rest,
            &mut words,
            &mut starts,
            &mut dots,
            count,
            opened,
            token,
        );
        count = place.count;
        opened = place.opened;
        rest = place.queue;
        at = read.next;
    }
    Built {
        word: words[0],
        queue: rest,
    }
}
