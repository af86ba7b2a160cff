// The load bench's traffic: one line from standard input, calls and replies to standard output. Proved (specs/Threading): what goes from call to call is
// as load_lines' theorem on whole loads wants it, and where the reader's and the writer's bytes are known, that what is kept is of these and that these are
// written; of the system's own streams std's contracts say nothing of bytes.
#![tactic(auto)]

ghost use Rattle.std.specs.Prelude.{◌≡◌, ℕ, true, ◌+◌, ◌-◌, ◌≤◌, ◌<◌, length};
ghost use Rattle.load_lines.specs.Progress.{calls_of, is_more, both_room};
ghost use Rattle.load_lines.specs.Whole.{begin};
ghost use Rattle.load.specs.Threading.{state, Gathers, gathers_none, gathers_both, Sends, sends_both, Runs};

use line_text::kept::{KEPT_BYTES, keep};
use load_lines::Load;
use std::io;
use streams::{Failure, Fed, Feed, LARGE, Sent, Source, send, take_input, tell_failure};
use traffic::Workload;
use traffic::input::workload;

// What is kept of the input: its first bytes.
#[derive(Drop)]
struct Input {
    line: [u8; KEPT_BYTES],
    held: usize,
}

impl Feed for Input {
    ghost feeds = { Gathers };

    ghost feed_room = { 0 };

    ghost feeds_none = { gathers_none };

    ghost feeds_both = { λ s s' s'' x y x' y' a b. gathers_both a b };

    fn feed(&mut self, input: &[u8], out: &mut [u8]) -> Fed {
        self.held = keep(&mut self.line, self.held, input);
        Fed {
            taken: input.len(),
            written: 0,
        }
    }
}

// A load with the table and the scratch that it works on.
#[derive(Drop)]
struct Sending {
    load: Load,
    table: [u16; cells::MOST_WORDS],
    scratch: [u16; cells::MOST_SCRATCH],
}

impl Sending {
    // It begins with the table and the scratch of the theorem on whole loads.
    fn start(asked: Option<Workload>) -> Sending
        ensures { state result ≡ begin asked }
    {
        Sending {
            load: Load::start(asked),
            table: [0; cells::MOST_WORDS],
            scratch: [0; cells::MOST_SCRATCH],
        }
    }
}

impl Source for Sending {
    ghost ready = { λ s. is_more s.load ≡ true };

    ghost sends = { λ s y more _ s'. Sends s y more s' };

    ghost calls_left = { λ s. calls_of s.load.asked + 1 - s.load.done };

    ghost send_room = { both_room };

    ghost sends_both = { λ s s' s'' x y out out' more a b. sends_both a b };

    fn next(&mut self, out: &mut [u8]) -> Sent {
        let written = load_lines::next(self.load, &mut self.table, &mut self.scratch, out);
        self.load = written.load;
        Sent {
            written: written.written,
            more: self.load.is_more(),
        }
    }
}

// The whole input is taken, of which the first bytes are kept, and at its end, and only there, the load that they ask for is written.
fn answer<R: io::Read, W: io::Write>(
    reader: &mut R,
    writer: &mut W,
    buffer: &mut [u8],
) -> Result<(), Failure>
    requires buffer { 0 < length buffer.old }
    requires room { both_room ≤ length buffer.old }
    ensures { Runs (R.remaining reader.old) (W.contents writer.old) result (R.remaining reader.new) (W.contents writer.new) }
{
    let mut input = Input {
        line: [0; KEPT_BYTES],
        held: 0,
    };
    take_input(reader, writer, &mut input, buffer, &mut [])?;
    let mut sending = Sending::start(workload(&input.line[..input.held]));
    send(writer, &mut sending, buffer)
}

// A failure is told on standard error.
fn run<R: io::Read, W: io::Write, E: io::Write>(
    reader: &mut R,
    writer: &mut W,
    errors: &mut E,
    buffer: &mut [u8],
) -> Result<(), Failure>
    requires buffer { 0 < length buffer.old }
    requires room { both_room ≤ length buffer.old }
    ensures { Runs (R.remaining reader.old) (W.contents writer.old) result (R.remaining reader.new) (W.contents writer.new) }
{
    let ended = answer(reader, writer, buffer);
    tell_failure(
        errors,
        ended,
        b"load: reading failed\n",
        b"load: writing failed\n",
    );
    ended
}

fn main(rt: HostRuntime) {
    let mut buffer = [0; LARGE];
    let _ = run(
        &mut rt.stdin(),
        &mut rt.stdout(),
        &mut rt.stderr(),
        &mut buffer,
    );
}
