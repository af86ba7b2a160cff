// Runs of bytes, split and searched.
ghost use Rattle.std.specs.Prelude.{◌≡◌, ◌==◌, ◌+◌, ◌≤◌, MatchOption, length, position, drop};
ghost use Rattle.base_ten.specs.Bytes.{line_feed, before, SplitsAt};

use memchr::memchr;

fn first(s: &[u8], b: u8) -> Option<usize>
    ensures { result ≡ position (λ x. x == b) s.now }
{
    s.iter().position(|x| *x == b)
}

// What stands before the first b, and what behind it.
pub fn split_once(s: &[u8], b: u8) -> Option<(&[u8], &[u8])>
    ensures { MatchOption result (before b s.now ≡ length s.now) (λ p. SplitsAt b s.now p.0.now p.1.now) }
{
    let at = first(s, b)?;
    Some((&s[..at], &s[at + 1..]))
}

// The place of the first line feed from a place on, or the length where there is none.
pub fn next_line_feed(s: &[u8], start: usize) -> usize
    requires { start ≤ length s.now }
    ensures { result ≡ start + before line_feed (drop start s.now) }
{
    match memchr(b'\n', &s[start..]) {
        Some(found) => start + found,
        None => s.len(),
    }
}
