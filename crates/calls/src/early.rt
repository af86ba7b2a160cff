// Questions 1 to 5 and 14, which have an answer on every store and look at no packet.
ghost use Rattle.std.specs.Prelude.{◌≡◌, false, []};
ghost use Rattle.machine.specs.Calls.{row, store, reads_nil};
ghost use Rattle.machine.specs.Questions.{first_no, early};
ghost use Rattle.machine.specs.Answers.{asked_number, call_of};
ghost use Rattle.calls.specs.Early.{words_number, first_of, cell_number, stored_number};

use machine::{Asked, Queue, Refusal, RowCall};

// Questions 1, 3 and 4 of a call with the number n and the words x and y; a call without a number has 1 for n, one without y has nil.
fn words_asked(table: &[u16], queue: &Queue, n: u16, x: u16, y: u16) -> Asked
    ensures { asked_number result ≡ words_number table.now queue.now n x y }
{
    if !questions::in_range(table, queue) {
        return Err(Refusal::StoreOutOfRange);
    }
    if !questions::number_in_range(n) {
        return Err(Refusal::NumberOutOfRange);
    }
    let c = cells::capacity_of(table);
    if !questions::is_legal(c, x) {
        return Err(Refusal::IllegalWord);
    }
    if !questions::is_legal(c, y) {
        return Err(Refusal::IllegalWord);
    }
    Ok(())
}

// And question 5: x is a cell.
fn cell_asked(table: &[u16], queue: &Queue, n: u16, x: u16, y: u16) -> Asked
    ensures { asked_number result ≡ cell_number table.now queue.now n x y }
{
    words_asked(table, queue, n, x, y)?;
    if !questions::is_cell(cells::capacity_of(table), x) {
        return Err(Refusal::NotACell);
    }
    Ok(())
}

// And question 14, behind what those before it said: x and y are the words put into a cell; a call that puts in one has nil for x.
fn stored_asked(before: Asked, x: u16, y: u16) -> Asked
    ensures { asked_number result ≡ first_of (asked_number before) (stored_number x y) }
{
    before?;
    if !questions::may_be_stored(x) {
        return Err(Refusal::ClippedReading);
    }
    if !questions::may_be_stored(y) {
        return Err(Refusal::ClippedReading);
    }
    Ok(())
}

// Of any call but a read of nil.
pub fn early_asked(table: &[u16], queue: &Queue, call: RowCall) -> Asked
    requires { reads_nil (call_of call) ≡ false }
    ensures { asked_number result ≡ first_no (early (store table.now queue.now []) (row (call_of call))) }
{
    match call {
        RowCall::Car(x) => cell_asked(table, queue, 1, x, 0),
        RowCall::Cdr(x) => cell_asked(table, queue, 1, x, 0),
        RowCall::Cons(x, y) => stored_asked(words_asked(table, queue, 1, x, y), x, y),
        RowCall::SetLeft(x, y) => stored_asked(cell_asked(table, queue, 1, x, y), 0, y),
        RowCall::SetRight(x, y) => stored_asked(cell_asked(table, queue, 1, x, y), 0, y),
        RowCall::Up(x, n) => cell_asked(table, queue, n, x, 0),
        RowCall::Down(x, n) => cell_asked(table, queue, n, x, 0),
    }
}
