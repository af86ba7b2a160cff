// The queue: place count k s1 kind1 a1 b1 c1 ..., with the slots that have a word other than 0.
ghost use Rattle.std.specs.Prelude.{◌<◌};
ghost use Rattle.machine.specs.Queue.{slots};

use machine::Queue;
use std::fmt;

pub const SLOTS: usize = Queue::SLOTS as usize;

pub fn queue_of(numbers: &[u16]) -> Queue {
    let [place, count, _, slots @ ..] = numbers else {
        return Queue::empty();
    };
    let mut queue = Queue::empty();
    queue.place = *place;
    queue.count = *count;
    for slot in slots.chunks_exact(5) {
        let j = usize::from(slot[0]);
        if j < SLOTS {
            queue.kinds[j] = slot[1];
            queue.a[j] = slot[2];
            queue.b[j] = slot[3];
            queue.c[j] = slot[4];
        }
    }
    queue
}

pub fn slot_words(queue: &Queue, j: usize) -> [u16; 4]
    requires { j < slots }
{
    [queue.kinds[j], queue.a[j], queue.b[j], queue.c[j]]
}

fn is_used(words: [u16; 4]) -> bool {
    words != [0; 4]
}

// A queue that is written as a line's numbers.
#[derive(Clone, Copy)]
pub struct Packets<'q>(pub &'q Queue);

impl<'q> fmt::Display for Packets<'q> {
    fn fmt<W: fmt::Write>(&self, f: &mut fmt::Formatter<W>) -> fmt::Result {
        let queue = self.0;
        let used = (0..SLOTS)
            .filter(|j| is_used(slot_words(queue, *j)))
            .count();
        write!(f, "{} {} {used}", queue.place, queue.count)?;
        for j in 0..SLOTS {
            let words = slot_words(queue, j);
            if is_used(words) {
                let [kind, a, b, c] = words;
                write!(f, " {j} {kind} {a} {b} {c}")?;
            }
        }
        Ok(())
    }
}
