// The shell of a program that answers its input, whatever it does with it: all of the input is taken, part by part, and what is given is written (specs/Service).

ghost use Rattle.std.specs.Prelude.{◌≡◌, Bool, true, false, ℕ, ◌≤◌, ◌<◌, List, [], ◌++◌, length, take, IsTrue, IfErr};
ghost use Rattle.streams.specs.Reading.{Within};
ghost use Rattle.streams.specs.Service.{Relays, Follows, TakesInput, Sending, Serves};

use crate::{Failure, read_front, write_all};
use std::io;

// After a part of the input: how much of it was taken, and how much was written into the buffer's front.
#[derive(Clone, Copy, Drop)]
pub struct Fed {
    pub taken: usize,
    pub written: usize,
}

// What takes an input, and gives bytes for it.
pub trait Feed {
    // calls of `feed` lead from one state to another: they took these bytes, and gave those
    ghost feeds: { Self → List ℕ → List ℕ → Self → Type 0 };

    // a buffer with this room takes some of any input
    ghost feed_room: { ℕ };

    fn feed(&mut self, input: &[u8], out: &mut [u8]) -> Fed
        ensures most { result.taken ≤ length input.now }
        ensures within { result.written ≤ length out.new }
        ensures some { 0 < length input.now → feed_room ≤ length out.old → 0 < result.taken }
        ensures feeds { feeds self.old (take result.taken input.now) (take result.written out.new) self.new };

    // no call takes and gives nothing, and calls one after the other take and give one after the other
    ghost feeds_none: { (s : Self) → feeds s [] [] s };

    ghost feeds_both: { (s s' s'' : Self) (x y x' y' : List ℕ) → feeds s x y s' → feeds s' x' y' s'' → feeds s (x ++ x') (y ++ y') s'' };
}

// After a call: how much was written into the buffer's front, and whether there is more.
#[derive(Clone, Copy, Drop)]
pub struct Sent {
    pub written: usize,
    pub more: bool,
}

// What gives bytes, call by call, until there is no more.
pub trait Source {
    // there is something to give
    ghost ready: { Self → Type 0 };

    // calls of `next` lead from one state to another: they gave these bytes, there is more or not, and this is the buffer that the last one left
    ghost sends: { Self → List ℕ → Bool → List ℕ → Self → Type 0 };

    // at most so many calls are left
    ghost calls_left: { Self → ℕ };

    ghost send_room: { ℕ };

    fn next(&mut self, out: &mut [u8]) -> Sent
        requires ready { ready self.old }
        requires room { send_room ≤ length out.old }
        ensures within { result.written ≤ length out.new }
        ensures send { sends self.old (take result.written out.new) result.more out.new self.new }
        ensures ready { IsTrue result.more → ready self.new }
        ensures fewer { IsTrue result.more → calls_left self.new < calls_left self.old };

    ghost sends_both: { (s s' s'' : Self) (x y out out' : List ℕ) (more : Bool) → sends s x true out s' → sends s' y more out' s''
        → sends s (x ++ y) more out' s'' };
}

// A part of the input is fed, and what it gives is written.
fn relay<W: io::Write, S: Feed>(
    writer: &mut W,
    service: &mut S,
    input: &[u8],
    out: &mut [u8],
) -> Result<(), Failure>
    requires { S.feed_room ≤ length out.old }
    ensures relays { Relays S.feeds service.old input.now (W.contents writer.old) result service.new (W.contents writer.new) }
    ensures failure { IfErr result (λ e. e ≡ Failure.Writing) }
{
    // Kept: (d) a step is as long as what the call took, and no `for` has such steps.
    let mut from = 0;
    while from < input.len() {
        let fed = service.feed(&input[from..], out);
        from += fed.taken;
        write_all(writer, &out[..fed.written])?;
    }
    Ok(())
}

// What a read put into the buffer's front is relayed. Tells whether there may be more.
fn follow<W: io::Write, S: Feed>(
    writer: &mut W,
    service: &mut S,
    read: Result<Option<usize>, Failure>,
    input: &[u8],
    out: &mut [u8],
) -> Result<bool, Failure>
    requires within { Within (length input.now) read }
    requires room { S.feed_room ≤ length out.old }
    ensures { Follows S.feeds read service.old input.now (W.contents writer.old) result service.new (W.contents writer.new) }
{
    match read {
        Ok(Some(n)) => {
            relay(writer, service, &input[..n], out)?;
            Ok(true)
        }
        Ok(None) => Ok(false),
        Err(failure) => Err(failure),
    }
}

// The whole input is read into the buffer, part by part, and fed.
pub fn take_input<R: io::Read, W: io::Write, S: Feed>(
    reader: &mut R,
    writer: &mut W,
    service: &mut S,
    input: &mut [u8],
    out: &mut [u8],
) -> Result<(), Failure>
    requires buffer { 0 < length input.old }
    requires room { S.feed_room ≤ length out.old }
    ensures { TakesInput S.feeds service.old (R.remaining reader.old) (W.contents writer.old)
        result service.new (R.remaining reader.new) (W.contents writer.new) }
{
    'reads: for _ in 0..u64::MAX {
        let read = read_front(reader, input);
        let more = follow(writer, service, read, input, out)?;
        if !more {
            return Ok(()); // the end of the input
        }
    }
    Err(Failure::TooLong)
}

// All that there is to give is written.
pub fn send<W: io::Write, S: Source>(
    writer: &mut W,
    source: &mut S,
    out: &mut [u8],
) -> Result<(), Failure>
    requires ready { S.ready source.old }
    requires room { S.send_room ≤ length out.old }
    ensures sends { Sending S.sends source.old (W.contents writer.old) result out.new source.new (W.contents writer.new) }
    ensures failure { IfErr result (λ e. e ≡ Failure.Writing) }
{
    loop {
        let sent = source.next(out);
        write_all(writer, &out[..sent.written])?;
        if !sent.more {
            return Ok(());
        }
    }
}

// All of the input is answered: it is fed, and at its end, and only there, what is left to give is written.
pub fn serve<R: io::Read, W: io::Write, S: Feed + Source>(
    reader: &mut R,
    writer: &mut W,
    service: &mut S,
    input: &mut [u8],
    out: &mut [u8],
) -> Result<(), Failure>
    requires buffer { 0 < length input.old }
    requires feed_room { S.feed_room ≤ length out.old }
    requires send_room { S.send_room ≤ length out.old }
    requires ready { (s : _) → S.ready s }
    ensures { Serves S.feeds (λ last y. S.sends last y false out.new service.new) (λ last y. (more : Bool) × S.sends last y more out.new service.new)
        service.old (R.remaining reader.old) (W.contents writer.old) result service.new (R.remaining reader.new) (W.contents writer.new) }
{
    take_input(reader, writer, service, input, out)?;
    send(writer, service, out)
}
