// One number for a whole store.
ghost use Rattle.std.specs.Prelude.{◌≡◌, ◌<◌, ◌^◌};
ghost use Rattle.state_lines.specs.Checksum.{modulus, mixed};

use crate::queue::{SLOTS, slot_words};
use machine::Queue;

fn mix(sum: u64, m: u64) -> u64
    requires { (sum < modulus) × (m < 2 ^ 62) }
    ensures { (result ≡ mixed sum m) × (result < modulus) }
{
    (65599 * sum + m + 1) % 4294967291
}

fn mix_word(sum: u64, m: u16) -> u64
    requires { sum < modulus }
    ensures { (result ≡ mixed sum m) × (result < modulus) }
{
    mix(sum, u64::from(m))
}

fn mix_words(sum: u64, words: &[u16]) -> u64
    requires { sum < modulus }
    ensures { result < modulus }
{
    let mut s = sum;
    for word in words {
        s = mix_word(s, *word);
    }
    s
}

fn mix_slots(sum: u64, queue: &Queue) -> u64
    requires { sum < modulus }
    ensures { result < modulus }
{
    let mut s = sum;
    for j in 0..SLOTS {
        s = mix_words(s, &slot_words(queue, j));
    }
    s
}

pub fn checksum_of(table: &[u16], queue: &Queue, scratch: &[u16]) -> u64
    ensures { result < modulus }
{
    let s = mix_words(mix(0, table.len() as u64), table);
    let s = mix_word(mix_word(s, queue.place), queue.count);
    let s = mix_slots(s, queue);
    mix_words(mix(s, scratch.len() as u64), scratch)
}
