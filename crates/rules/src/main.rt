// Rule texts from standard input, each answered on standard output as the store writes it back. Proved (specs/Threading): what goes from call to call is
// as rule_lines' theorem on whole inputs wants it, and where the reader's and the writer's bytes are known, that these are fed and written; of the system's
// own streams std's contracts say nothing of bytes.
#![tactic(auto)]

ghost use Rattle.std.specs.Prelude.{◌≤◌, ◌<◌, length};
ghost use Rattle.rule_lines.specs.Answers.{room};
ghost use Rattle.rule_lines.specs.Whole.{Begins};
ghost use Rattle.serving.proofs.ThreadsLaws.{threads_none, threads_both};
ghost use Rattle.rules.specs.Threading.{state_of, Feeds, Finished, finished_once, Runs};

use rule_lines::Rules;
use std::io;
use streams::{Failure, Fed, Feed, LARGE, Sent, Source, serve, tell_failure};

// The rules with the table, the scratch and the line that they work on.
#[derive(Drop)]
struct Answering {
    rules: Rules,
    table: [u16; cells::MOST_WORDS],
    scratch: [u16; cells::MOST_SCRATCH],
    line: [u8; rule_lines::LINE_BYTES],
}

impl Answering {
    // The table and the scratch are long enough for more cells than the store has.
    fn start() -> Answering
        ensures { Begins (state_of result) }
    {
        let mut table = [0; cells::MOST_WORDS];
        let rules = Rules::start(&mut table);
        Answering {
            rules,
            table,
            scratch: [0; cells::MOST_SCRATCH],
            line: [0; rule_lines::LINE_BYTES],
        }
    }
}

impl Feed for Answering {
    ghost feeds = { Feeds };

    ghost feed_room = { room };

    ghost feeds_none = { λ s. threads_none (state_of s) };

    ghost feeds_both = { λ s s' s'' x y x' y' a b. threads_both a b };

    fn feed(&mut self, input: &[u8], out: &mut [u8]) -> Fed {
        let fed = rule_lines::feed(
            self.rules,
            &mut self.table,
            &mut self.scratch,
            &mut self.line,
            input,
            out,
        );
        self.rules = fed.state;
        Fed {
            taken: fed.taken,
            written: fed.written,
        }
    }
}

// At the end of the input a last line without its line feed is answered.
impl Source for Answering {
    ghost ready = { λ _. Unit {0} };

    ghost sends = { λ s y more out s'. Finished (state_of s) y more out };

    ghost calls_left = { λ _. 0 };

    ghost send_room = { room };

    ghost sends_both = { λ s s' s'' x y out out' more a b. finished_once a };

    fn next(&mut self, out: &mut [u8]) -> Sent {
        let finished = rule_lines::finish(
            self.rules,
            &mut self.table,
            &mut self.scratch,
            &mut self.line,
            out,
        );
        match finished {
            Some(written) => Sent {
                written,
                more: false,
            },
            None => unreachable!(),
        }
    }
}

// The whole input is answered, and a failure told on standard error.
fn run<R: io::Read, W: io::Write, E: io::Write>(
    reader: &mut R,
    writer: &mut W,
    errors: &mut E,
    answering: &mut Answering,
    input: &mut [u8],
    out: &mut [u8],
) -> Result<(), Failure>
    requires begins { Begins (state_of answering.old) }
    requires buffer { 0 < length input.old }
    requires room { room ≤ length out.old }
    ensures { Runs answering.old (R.remaining reader.old) (W.contents writer.old)
        result out.new answering.new (R.remaining reader.new) (W.contents writer.new) }
{
    let ended = serve(reader, writer, answering, input, out);
    tell_failure(
        errors,
        ended,
        b"rules: reading failed\n",
        b"rules: writing failed\n",
    );
    ended
}

fn main(rt: HostRuntime) {
    let mut answering = Answering::start();
    let mut input = [0; LARGE];
    let mut out = [0; LARGE];
    let _ = run(
        &mut rt.stdin(),
        &mut rt.stdout(),
        &mut rt.stderr(),
        &mut answering,
        &mut input,
        &mut out,
    );
}
