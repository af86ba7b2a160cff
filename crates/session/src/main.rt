// A session from standard input to standard output. Proved (specs/Threading): what goes from call to call is as session_lines' theorem on whole
// sessions wants it, and where the reader's and the writer's bytes are known, that these are fed and written; of the system's own streams std's contracts
// say nothing of bytes.
#![tactic(auto)]

ghost use Rattle.std.specs.Prelude.{◌≡◌, ◌≤◌, ◌<◌, length};
ghost use Rattle.line_text.specs.Texts.{room};
ghost use Rattle.serving.proofs.ThreadsLaws.{threads_none, threads_both};
ghost use Rattle.session_lines.specs.Whole.{begin};
ghost use Rattle.session.specs.Threading.{state, Feeds, Finished, finished_once, Runs};

use session_lines::Session;
use std::io;
use streams::{Failure, Fed, Feed, LARGE, Sent, Source, serve, tell_failure};

// A session with the table and the scratch that it works on.
#[derive(Drop)]
struct Serving {
    session: Session,
    table: [u16; cells::MOST_WORDS],
    scratch: [u16; cells::MOST_SCRATCH],
}

impl Serving {
    // It begins with the table and the scratch of the theorem on whole sessions.
    fn start() -> Serving
        ensures { state result ≡ begin }
    {
        Serving {
            session: Session::start(),
            table: [0; cells::MOST_WORDS],
            scratch: [0; cells::MOST_SCRATCH],
        }
    }
}

impl Feed for Serving {
    ghost feeds = { Feeds };

    ghost feed_room = { room };

    ghost feeds_none = { λ s. threads_none (state s) };

    ghost feeds_both = { λ s s' s'' x y x' y' a b. threads_both a b };

    fn feed(&mut self, input: &[u8], out: &mut [u8]) -> Fed {
        let fed = session_lines::feed(self.session, &mut self.table, &mut self.scratch, input, out);
        self.session = fed.state;
        Fed {
            taken: fed.taken,
            written: fed.written,
        }
    }
}

// At the end of the input a last line without its line feed is served.
impl Source for Serving {
    ghost ready = { λ _. Unit {0} };

    ghost sends = { λ s y more out s'. Finished (state s) y more out };

    ghost calls_left = { λ _. 0 };

    ghost send_room = { room };

    ghost sends_both = { λ s s' s'' x y out out' more a b. finished_once a };

    fn next(&mut self, out: &mut [u8]) -> Sent {
        match session_lines::finish(self.session, &mut self.table, &mut self.scratch, out) {
            Some(written) => Sent {
                written,
                more: false,
            },
            None => unreachable!(),
        }
    }
}

// The whole input is served, and a failure told on standard error.
fn run<R: io::Read, W: io::Write, E: io::Write>(
    reader: &mut R,
    writer: &mut W,
    errors: &mut E,
    serving: &mut Serving,
    input: &mut [u8],
    out: &mut [u8],
) -> Result<(), Failure>
    requires begins { state serving.old ≡ begin }
    requires buffer { 0 < length input.old }
    requires room { room ≤ length out.old }
    ensures { Runs serving.old (R.remaining reader.old) (W.contents writer.old)
        result out.new serving.new (R.remaining reader.new) (W.contents writer.new) }
{
    let ended = serve(reader, writer, serving, input, out);
    tell_failure(
        errors,
        ended,
        b"session: reading failed\n",
        b"session: writing failed\n",
    );
    ended
}

fn main(rt: HostRuntime) {
    let mut serving = Serving::start();
    let mut input = [0; LARGE];
    let mut out = [0; LARGE];
    let _ = run(
        &mut rt.stdin(),
        &mut rt.stdout(),
        &mut rt.stderr(),
        &mut serving,
        &mut input,
        &mut out,
    );
}
