// The queue's words, in C `struct row_queue`: its four arrays one after the other, the place and the count.
ghost use Rattle.std.specs.Prelude.{◌≡◌, ◌<◌, length};
ghost use Rattle.machine.specs.Queue.{slots};
ghost use Rattle.c_layout.specs.Queues.{array_in, queue_words, queue_in, ArrayPut};

use machine::Queue;

pub const QUEUE_WORDS: usize = 258;

const PLACE: usize = 256;

const COUNT: usize = 257;

fn array_in(words: &[u16; QUEUE_WORDS], k: usize) -> [u16; 64]
    requires { k < 4 }
    ensures { result ≡ array_in k words.now }
{
    let mut array = [0; 64];
    array.copy_from_slice(&words[64 * k..64 * (k + 1)]);
    array
}

fn put_array(words: &mut [u16; QUEUE_WORDS], k: usize, array: &[u16; 64])
    requires { k < 4 }
    ensures { ArrayPut words.old k array.now words.new }
{
    words[64 * k..64 * (k + 1)].copy_from_slice(array);
}

pub fn load(words: [u16; QUEUE_WORDS]) -> Queue
    ensures { result ≡ queue_in words }
{
    Queue {
        kinds: array_in(&words, 0),
        a: array_in(&words, 1),
        b: array_in(&words, 2),
        c: array_in(&words, 3),
        place: words[PLACE],
        count: words[COUNT],
    }
}

pub fn save(words: &mut [u16; QUEUE_WORDS], queue: Queue)
    ensures { queue_in words.new ≡ queue }
{
    put_array(words, 0, &queue.kinds);
    put_array(words, 1, &queue.a);
    put_array(words, 2, &queue.b);
    put_array(words, 3, &queue.c);
    words[PLACE] = queue.place;
    words[COUNT] = queue.count;
}
