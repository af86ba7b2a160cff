// The questions that have an answer on every store: 15, then 1 and 2, a set then 4 and 14.
ghost use Rattle.std.specs.Prelude.{◌≡◌, ◌∷◌};
ghost use Rattle.machine.specs.Answers.{asked_number};
ghost use Rattle.machine.specs.Calls.{store};
ghost use Rattle.machine.specs.Questions.{ask, first_no};
ghost use Rattle.readings.specs.Calls.{is_seat, ask_store, ask_reading, early_roster, set};
ghost use Rattle.roster_list.specs.Asking.{Asks};

use machine::{Asked, CLIP, FIRST_ATOM, Queue, Refusal};
use readings::SEATS;

fn is_seat(seat: u16) -> bool
    ensures { result ≡ is_seat seat }
{
    (1..=SEATS).contains(&seat)
}

pub fn seat_asked(table: &mut [u16], queue: &Queue, scratch: &mut [u16], seat: u16) -> Asked
    ensures { Asks (ask 15 (is_seat seat) ∷ ask_store (store table.old queue.now scratch.old)) table.old scratch.old result table.new scratch.new }
{
    if !is_seat(seat) {
        return Err(Refusal::SeatOutOfRange);
    }
    roster_list::store_asked(table, queue, scratch)
}

fn reading_asked(reading: u16) -> Asked
    ensures { asked_number result ≡ first_no (ask_reading (set 0 reading)) }
{
    if FIRST_ATOM <= reading {
        return Err(Refusal::IllegalWord);
    }
    if CLIP <= reading {
        return Err(Refusal::ClippedReading);
    }
    Ok(())
}

pub fn set_asked(
    table: &mut [u16],
    queue: &Queue,
    scratch: &mut [u16],
    seat: u16,
    reading: u16,
) -> Asked
    ensures { Asks (early_roster (store table.old queue.now scratch.old) (set seat reading)) table.old scratch.old result table.new scratch.new }
{
    seat_asked(table, queue, scratch, seat)?;
    reading_asked(reading)
}
