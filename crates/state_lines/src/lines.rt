// A store as the lines of a list make it.
ghost use Rattle.std.specs.Prelude.{◌≡◌, ◌<◌, ◌≤◌, [], length};
ghost use Rattle.machine.specs.Calls.{store};
ghost use Rattle.machine.specs.Queue.{empty_queue};
ghost use Rattle.state_lines.specs.Checksum.{modulus};
ghost use Rattle.state_lines.specs.Sizes.{table_size, scratch_size};

use crate::checksum::checksum_of;
use crate::queue::{Packets, queue_of};
use crate::runs::{Runs, expand};
use machine::Queue;
use std::fmt;

// A little more than the longest table: lists have tables with words behind their cells, to show that no call touches them.
pub const TABLE: usize = cells::MOST_WORDS + 17;

// For the same reason a little more than the longest scratch that is used.
pub const SCRATCH: usize = cells::MOST_SCRATCH + 4;

// The queue, and two arrays of which so many words at the front are the table and the scratch.
#[derive(Clone, Copy, Drop)]
pub struct Store {
    table: [u16; TABLE],
    table_words: usize,
    scratch: [u16; SCRATCH],
    scratch_words: usize,
    queue: Queue,
    ghost table_size: { table_size ≡ length table },
    ghost scratch_size: { scratch_size ≡ length scratch },
    ghost table_within: { table_words ≤ length table },
    ghost scratch_within: { scratch_words ≤ length scratch },
}

impl Store {
    ghost use Rattle.state_lines.specs.Stores.{stored};

    // No words, and no packets.
    pub fn new() -> Store
        ensures { stored result ≡ store [] empty_queue [] }
    {
        Store {
            table: [0; TABLE],
            table_words: 0,
            scratch: [0; SCRATCH],
            scratch_words: 0,
            queue: Queue::empty(),
        }
    }

    pub fn table(&self) -> &[u16]
        ensures { result.now ≡ (stored self.now).table }
    {
        &self.table[..self.table_words]
    }

    pub fn scratch(&self) -> &[u16]
        ensures { result.now ≡ (stored self.now).scratch }
    {
        &self.scratch[..self.scratch_words]
    }

    pub fn queue(&self) -> &Queue
        ensures { result.now ≡ self.now.queue }
    {
        &self.queue
    }

    pub fn checksum(&self) -> u64
        ensures { result < modulus }
    {
        checksum_of(self.table(), &self.queue, self.scratch())
    }

    // Makes a call on the table, the queue and the scratch; the queue that it gives back is the store's from then on. Gives what else the call gives.
    pub fn call<R, F: FnOnce(&mut [u16], Queue, &mut [u16]) -> (R, Queue)>(&mut self, call: F) -> R
        requires { F.IsAlwaysCallable call }
        ensures table { self.new.table_words ≡ self.old.table_words }
        ensures scratch { self.new.scratch_words ≡ self.old.scratch_words }
    {
        let Store {
            table,
            table_words,
            scratch,
            scratch_words,
            queue,
        } = self;
        let (given, after) = on_fronts(table, *table_words, scratch, *scratch_words, *queue, call);
        *queue = after;
        given
    }

    // Does what a line says that is no call; one with a letter that has no meaning here, such as a title, changes nothing.
    pub fn change(&mut self, letter: u8, numbers: &[u16]) {
        match letter {
            b'T' => {
                self.table_words = expand(numbers, &mut self.table);
                self.scratch_words = 0;
                self.queue = Queue::empty();
            }
            b'S' => self.scratch_words = expand(numbers, &mut self.scratch),
            b'Q' => self.queue = queue_of(numbers),
            b'W' => self.put_word(numbers),
            _ => {}
        }
    }

    fn put_word(&mut self, numbers: &[u16]) {
        if let [i, word, ..] = numbers {
            let i = usize::from(*i);
            if i < TABLE {
                self.table[i] = *word;
            }
        }
    }
}

// Makes a call on so many words at the front of each.
fn on_fronts<R, F: FnOnce(&mut [u16], Queue, &mut [u16]) -> (R, Queue)>(
    table: &mut [u16],
    table_words: usize,
    scratch: &mut [u16],
    scratch_words: usize,
    queue: Queue,
    call: F,
) -> (R, Queue)
    requires table { table_words ≤ length table.old }
    requires scratch { scratch_words ≤ length scratch.old }
    requires call { F.IsAlwaysCallable call }
{
    call(
        &mut table[..table_words],
        queue,
        &mut scratch[..scratch_words],
    )
}

// The three lines of a store, without the last line feed.
impl fmt::Display for Store {
    fn fmt<W: fmt::Write>(&self, f: &mut fmt::Formatter<W>) -> fmt::Result {
        let table = Runs(self.table());
        let queue = Packets(&self.queue);
        let scratch = Runs(self.scratch());
        write!(f, "T {table}\nQ {queue}\nS {scratch}")
    }
}
