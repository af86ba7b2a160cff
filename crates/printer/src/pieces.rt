// A piece's bytes: counted, and written.
ghost use Rattle.std.specs.Prelude.{◌≡◌, ◌+◌, ◌≤◌, ◌<◌, length};
ghost use Rattle.base_ten.specs.Decimal.{decimal};
ghost use Rattle.base_ten.specs.Put.{Put};
ghost use Rattle.printer.specs.Pieces.{bytes_of};

use crate::walk::Piece;
use base_ten::put::{put_digits, put_word};

fn digit_count(v: u16) -> usize
    ensures { result ≡ length (decimal v) }
{
    if v < 10 {
        return 1;
    }
    if v < 100 {
        return 2;
    }
    if v < 1000 {
        return 3;
    }
    if v < 10000 {
        return 4;
    }
    5
}

pub(crate) fn width(piece: Piece) -> usize
    ensures { (result ≡ length (bytes_of piece)) × (0 < result) }
{
    match piece {
        Piece::Opening => 1,
        Piece::Empty => 2,
        Piece::Number(v) => digit_count(v),
        Piece::Space => 1,
        Piece::Dotted(v) => 4 + digit_count(v),
        Piece::Closing => 1,
    }
}

// With just as many digits as the number has.
fn put_number(out: &mut [u8], at: usize, v: u16) -> usize
    requires { at + length (decimal v) ≤ length out.old }
    ensures { Put out.old at (decimal v) out.new result }
{
    put_digits(out, at, digit_count(v), v as u64)
}

fn put_dotted(out: &mut [u8], at: usize, v: u16) -> usize
    requires { at + length (bytes_of (Piece.Dotted v)) ≤ length out.old }
    ensures { Put out.old at (bytes_of (Piece.Dotted v)) out.new result }
{
    let start = put_word(out, at, b" . ");
    let end = put_number(out, start, v);
    put_word(out, end, b")")
}

pub(crate) fn put_piece(out: &mut [u8], at: usize, piece: Piece) -> usize
    requires { at + length (bytes_of piece) ≤ length out.old }
    ensures { Put out.old at (bytes_of piece) out.new result }
{
    match piece {
        Piece::Opening => put_word(out, at, b"("),
        Piece::Empty => put_word(out, at, b"()"),
        Piece::Number(v) => put_number(out, at, v),
        Piece::Space => put_word(out, at, b" "),
        Piece::Dotted(v) => put_dotted(out, at, v),
        Piece::Closing => put_word(out, at, b")"),
    }
}
