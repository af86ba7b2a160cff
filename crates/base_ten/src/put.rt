// Numbers and words, written into a lent buffer from a place on.
ghost use Rattle.std.specs.Prelude.{◌++◌, ◌+◌, ◌≤◌, length};
ghost use Rattle.base_ten.specs.Decimal.{digits, most_digits, decimal};
ghost use Rattle.base_ten.specs.Put.{Put};

// No number here has more digits.
pub const MOST_DIGITS: usize = 20;

// A number in base ten, of at most so many digits.
pub fn put_digits(out: &mut [u8], at: usize, most: usize, n: u64) -> usize
    requires { at + most ≤ length out.old }
    ensures { Put out.old at (digits most n) out.new result }
{
    if most == 0 {
        return at;
    }
    if n < 10 {
        out[at] = b'0' + (n as u8);
        return at + 1;
    }
    let end = put_digits(out, at, most - 1, n / 10);
    out[end] = b'0' + ((n % 10) as u8);
    end + 1
}

pub fn put_word(out: &mut [u8], at: usize, word: &[u8]) -> usize
    requires { at + length word.now ≤ length out.old }
    ensures { Put out.old at word.now out.new result }
{
    let end = at + word.len();
    out[at..end].copy_from_slice(word);
    end
}

// Most numbers have one digit, which needs no call.
pub fn put_counted(out: &mut [u8], at: usize, word: &[u8], n: u16) -> usize
    requires { at + length word.now + most_digits ≤ length out.old }
    ensures { Put out.old at (word.now ++ decimal n) out.new result }
{
    let end = put_word(out, at, word);
    if n < 10 {
        out[end] = b'0' + (n as u8);
        return end + 1;
    }
    put_digits(out, end, MOST_DIGITS, n as u64)
}
