// Numbers in base ten, read from bytes.
ghost use Rattle.std.specs.Prelude.{◌≡◌};
ghost use Rattle.base_ten.specs.Numbers.{number_from, number_of, AtMost};

// The number that these digits give, with or without leading zeros.
fn from_digits(s: &[u8], most: u32) -> Option<u32>
    ensures { (result ≡ number_from most 0 s.now) × AtMost most result }
{
    let mut v: u32 = 0;
    for d in s {
        if !d.is_ascii_digit() {
            return None;
        }
        v = v.checked_mul(10)?.checked_add(u32::from(*d - b'0'))?;
    }
    if v <= most { Some(v) } else { None }
}

// A number from 0 to `most`, without leading zeros.
pub fn number(s: &[u8], most: u32) -> Option<u32>
    ensures { (result ≡ number_of most s.now) × AtMost most result }
{
    let first = *s.first()?;
    if first == b'0' && s.len() > 1 {
        return None;
    }
    from_digits(s, most)
}
