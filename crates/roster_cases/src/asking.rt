// The questions before a call, asked here anew and not by the roster's way: after a call that the papers don't decide they are all that is known of another.
use crate::RosterCall;
use machine::{CLIP, FIRST_ATOM, Queue, Refusal};
use readings::SEATS;

fn seat_asked(seat: u16) -> Result<(), Refusal> {
    if (1..=SEATS).contains(&seat) {
        Ok(())
    } else {
        Err(Refusal::SeatOutOfRange)
    }
}

// As a step is asked.
fn store_asked(table: &[u16], queue: &Queue, scratch: &[u16]) -> Result<(), Refusal> {
    if !questions::in_range(table, queue) {
        return Err(Refusal::StoreOutOfRange);
    }
    if !questions::scratch_enough(table, scratch) {
        return Err(Refusal::ScratchTooShort);
    }
    Ok(())
}

fn reading_asked(reading: u16) -> Result<(), Refusal> {
    if FIRST_ATOM <= reading {
        Err(Refusal::IllegalWord)
    } else if CLIP <= reading {
        Err(Refusal::ClippedReading)
    } else {
        Ok(())
    }
}

// The first of these questions that refuses the call, in this order. A count has no seat; of a fresh nothing is asked here.
pub fn asked(
    table: &[u16],
    queue: &Queue,
    scratch: &[u16],
    call: RosterCall,
) -> Result<(), Refusal> {
    match call {
        RosterCall::Fresh(_) => Ok(()),
        RosterCall::Set { seat, reading } => {
            seat_asked(seat)?;
            store_asked(table, queue, scratch)?;
            reading_asked(reading)
        }
        RosterCall::LookUp(seat) | RosterCall::Remove(seat) => {
            seat_asked(seat)?;
            store_asked(table, queue, scratch)
        }
        RosterCall::Count(_) => store_asked(table, queue, scratch),
    }
}
