// Standard input, output and error, for any program: what is read from and written to is a parameter. Proved (specs/Reading): a read's failure, its end and
// its bytes are told apart, and the bytes have room in the buffer. Which bytes are read and written is said where the reader's and the writer's are known, as
// those of one over memory; of the system's own streams std's contracts say nothing of bytes.
// Besides the shell of a program that answers its input (service).
#![tactic(auto)]

ghost use Rattle.std.specs.Prelude.{◌≡◌, ◌≤◌, length, take, OnOk, IfErr};
ghost use Rattle.std.specs.Io.KnownBytes.{Consumes};
ghost use Rattle.streams.specs.Reading.{Within, Takes, Adds, AddsSome, told};

mod service;

pub use service::{Fed, Feed, Sent, Source, send, serve, take_input};
use std::io;

// Why a program stops before it has answered all of its input.
#[derive(Clone, Copy, Debug, PartialEq, Eq, Drop)]
pub enum Failure {
    Reading,
    Writing,
    // A proved loop has to end, and nothing says that the input does: so reads are counted, and no more than 2^64 - 1 are made.
    TooLong,
}

// The bytes of a buffer for a loop that moves much.
pub const LARGE: usize = 65536;

// One read into the buffer's front: how many bytes came, or none at the end of the input.
pub fn read_front<R: io::Read>(reader: &mut R, input: &mut [u8]) -> Result<Option<usize>, Failure>
    ensures within { Within (length input.new) result }
    ensures bytes { Takes (R.remaining reader.old) (R.remaining reader.new) result input.new }
    ensures failure { IfErr result (λ e. e ≡ Failure.Reading) }
{
    match reader.read(input) {
        Ok(0) => Ok(None),
        Ok(n) => Ok(Some(n)),
        Err(_) => Err(Failure::Reading),
    }
}

// Reads until the buffer is full, the input ends or a read fails, and gives how many bytes stand in the buffer's front.
#[tactic(auto, using(crate::proofs::ByteLaws::more_taken))]
pub fn read_full<R: io::Read>(reader: &mut R, input: &mut [u8]) -> usize
    ensures within { result ≤ length input.new }
    ensures bytes { Consumes (R.remaining reader.old) (R.remaining reader.new) (take result input.new) }
{
    // Kept: (d) a step is as long as what the read gave, and no `for` has such steps.
    let mut done = 0;
    while done < input.len() {
        let Ok(Some(n)) = read_front(reader, &mut input[done..]) else {
            return done;
        };
        done += n;
    }
    done
}

// Writes all of the bytes, or stops at the first write that fails or takes none.
#[tactic(auto, using(crate::proofs::ByteLaws::more_added))]
pub fn write_all<W: io::Write>(writer: &mut W, bytes: &[u8]) -> Result<(), Failure>
    ensures bytes { Adds (W.contents writer.old) (W.contents writer.new) bytes.now result }
    ensures failure { IfErr result (λ e. e ≡ Failure.Writing) }
{
    // Kept: (d) a step is as long as what the write took, and no `for` has such steps.
    let mut done = 0;
    while done < bytes.len() {
        match writer.write(&bytes[done..]) {
            Ok(0) | Err(_) => return Err(Failure::Writing),
            Ok(n) => done += n,
        }
    }
    Ok(())
}

// Writes to standard error. Whether that fails is not asked, since it could be told nowhere.
pub fn tell<E: io::Write>(errors: &mut E, message: &[u8])
    ensures { AddsSome (E.contents errors.old) (E.contents errors.new) message.now }
{
    let _ = write_all(errors, message);
}

// Why a program stopped is told on standard error, a failed read and a failed write each in its own words.
pub fn tell_failure<E: io::Write>(
    errors: &mut E,
    ended: Result<(), Failure>,
    reading: &[u8],
    writing: &[u8],
)
    ensures told { AddsSome (E.contents errors.old) (E.contents errors.new) (told ended reading.now writing.now) }
    ensures quiet { OnOk ended (errors.new ≡ errors.old) }
{
    match ended {
        Err(Failure::Reading) => tell(errors, reading),
        Err(Failure::Writing) => tell(errors, writing),
        Ok(()) | Err(Failure::TooLong) => {}
    }
}
