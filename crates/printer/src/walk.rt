// The walk through a word's text, piece by piece and without recursion: of each open list the rest is kept.
ghost use Rattle.std.specs.Prelude.{◌≡◌, ◌∷◌, ◌≤◌, ◌<◌, length};
ghost use Rattle.notation.specs.Brackets.{most_open};
ghost use Rattle.notation.specs.Parts.{element};
ghost use Rattle.machine.specs.Table.{capacity, table_length};
ghost use Rattle.printer.specs.Walk.{first_stop, kind_of, item, rests_of, items_of, Stepped};

use machine::FIRST_ATOM;

// At most so many brackets are open together.
pub(crate) const MOST_OPEN: usize = 32;

// What a word opens out into: a pair of two words, an atom by its value, or nil.
#[derive(Clone, Copy)]
pub(crate) enum Kind {
    Pair(u16, u16),
    Atom(u16),
    Nil,
}

// What is written from one stop of the walk to the next. A dotted end is the dot, the value and the closing bracket.
#[derive(Clone, Copy)]
pub(crate) enum Piece {
    Opening,
    Empty,
    Number(u16),
    Space,
    Dotted(u16),
    Closing,
}

// A stop: before the element that a word is, or behind an element, with so many lists open.
#[derive(Clone, Copy)]
pub(crate) struct Walk {
    pub word: u16,
    pub depth: usize,
    pub behind: bool,
}

// Kept: three ways on, each named; `Result<Option<(Piece, Walk)>, Unfit>` would nest two types, and hold an error that no step has.
#[derive(Clone, Copy)]
pub(crate) enum Step {
    Ended,
    TooDeep,
    Next(Piece, Walk),
}

// Before the whole text.
pub(crate) fn start(word: u16) -> Walk
    ensures { result ≡ first_stop word }
{
    Walk {
        word,
        depth: 0,
        behind: false,
    }
}

fn kind_of(table: &[u16], word: u16) -> Kind
    requires { table_length (capacity table.now) ≤ length table.now }
    ensures { result ≡ kind_of table.now word }
{
    if word == 0 {
        return Kind::Nil;
    }
    if word <= cells::capacity_of(table) {
        let index = (word - 1) as usize;
        let left = cells::field(table, index, cells::LEFT);
        let right = cells::field(table, index, cells::RIGHT);
        return Kind::Pair(left, right);
    }
    if word < FIRST_ATOM {
        return Kind::Nil;
    }
    Kind::Atom(word - FIRST_ATOM)
}

// The piece of an element.
fn at_element(table: &[u16], rests: &mut [u16], word: u16, depth: usize) -> Step
    requires { (table_length (capacity table.now) ≤ length table.now) × (depth ≤ most_open) × (most_open ≤ length rests.old) }
    ensures { Stepped table.now depth (item element word ∷ rests_of depth rests.old) result rests.new }
{
    let kind = kind_of(table, word);
    match kind {
        Kind::Pair(left, right) => {
            if depth == MOST_OPEN {
                return Step::TooDeep;
            }
            rests[depth] = right;
            let inside = Walk {
                word: left,
                depth: depth + 1,
                behind: false,
            };
            Step::Next(Piece::Opening, inside)
        }
        Kind::Atom(v) => {
            let after = Walk {
                word: 0,
                depth,
                behind: true,
            };
            Step::Next(Piece::Number(v), after)
        }
        Kind::Nil => {
            if depth == MOST_OPEN {
                return Step::TooDeep;
            }
            let after = Walk {
                word: 0,
                depth,
                behind: true,
            };
            Step::Next(Piece::Empty, after)
        }
    }
}

// The piece behind an element, by the rest of the innermost list.
fn at_rest(table: &[u16], rests: &mut [u16], depth: usize) -> Step
    requires { (table_length (capacity table.now) ≤ length table.now) × (0 < depth) × (depth ≤ most_open) × (most_open ≤ length rests.old) }
    ensures { Stepped table.now depth (rests_of depth rests.old) result rests.new }
{
    let top = depth - 1;
    let kind = kind_of(table, rests[top]);
    match kind {
        Kind::Pair(left, right) => {
            rests[top] = right;
            let inside = Walk {
                word: left,
                depth,
                behind: false,
            };
            Step::Next(Piece::Space, inside)
        }
        Kind::Atom(v) => {
            let after = Walk {
                word: 0,
                depth: top,
                behind: true,
            };
            Step::Next(Piece::Dotted(v), after)
        }
        Kind::Nil => {
            let after = Walk {
                word: 0,
                depth: top,
                behind: true,
            };
            Step::Next(Piece::Closing, after)
        }
    }
}

// The next piece and the stop behind it, or that the text is written, or that an opening bracket is one too many.
pub(crate) fn next(table: &[u16], rests: &mut [u16], walk: Walk) -> Step
    requires { (table_length (capacity table.now) ≤ length table.now) × (walk.depth ≤ most_open) × (most_open ≤ length rests.old) }
    ensures { Stepped table.now walk.depth (items_of walk rests.old) result rests.new }
{
    let depth = walk.depth;
    if walk.behind {
        if depth == 0 {
            return Step::Ended;
        }
        return at_rest(table, rests, depth);
    }
    at_element(table, rests, walk.word, depth)
}
