// The seat roster (document 02, A7): seats 1 to 600 with a reading each, kept in a store of its own and by the store's calls alone. Each call is lent the
// table, the queue, the roster's word and a scratch, and replies with the queue and the word afterwards. A roster begins with an accepted fresh and nil.
#![tactic(auto)]

mod ask;
mod in_place;
mod past;

ghost use Rattle.machine.specs.Calls.{store};
ghost use Rattle.readings.specs.Calls.{set, look_up, remove, count};
ghost use Rattle.readings.specs.Answers.{roster_reply};
ghost use Rattle.roster.specs.Promise.{RosterPromise};

use machine::Queue;
use readings::Replied;

// A seat's reading, put in the place of the one that it had, or a new seat.
pub fn set(
    table: &mut [u16],
    queue: Queue,
    word: u16,
    scratch: &mut [u16],
    seat: u16,
    reading: u16,
) -> Replied
    ensures { RosterPromise (store table.old queue scratch.old) word (set seat reading) (roster_reply result.answer) (store table.new result.queue scratch.new) result.word }
{
    let mut queue = queue;
    let mut word = word;
    let answer = in_place::set(table, &mut queue, &mut word, scratch, seat, reading);
    Replied {
        answer,
        queue,
        word,
    }
}

// A seat's reading, or that it is absent.
pub fn look_up(
    table: &mut [u16],
    queue: Queue,
    word: u16,
    scratch: &mut [u16],
    seat: u16,
) -> Replied
    ensures { RosterPromise (store table.old queue scratch.old) word (look_up seat) (roster_reply result.answer) (store table.new result.queue scratch.new) result.word }
{
    let mut queue = queue;
    let answer = in_place::look_up(table, &mut queue, word, scratch, seat);
    Replied {
        answer,
        queue,
        word,
    }
}

// A seat taken out, or that it is absent.
pub fn remove(table: &mut [u16], queue: Queue, word: u16, scratch: &mut [u16], seat: u16) -> Replied
    ensures { RosterPromise (store table.old queue scratch.old) word (remove seat) (roster_reply result.answer) (store table.new result.queue scratch.new) result.word }
{
    let mut queue = queue;
    let mut word = word;
    let answer = in_place::remove(table, &mut queue, &mut word, scratch, seat);
    Replied {
        answer,
        queue,
        word,
    }
}

// How many seats have a reading at or above the threshold.
pub fn count(
    table: &mut [u16],
    queue: Queue,
    word: u16,
    scratch: &mut [u16],
    threshold: u16,
) -> Replied
    ensures { RosterPromise (store table.old queue scratch.old) word (count threshold) (roster_reply result.answer) (store table.new result.queue scratch.new) result.word }
{
    let mut queue = queue;
    let answer = in_place::count(table, &mut queue, word, scratch, threshold);
    Replied {
        answer,
        queue,
        word,
    }
}
