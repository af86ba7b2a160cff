// The session's lines: bytes in, bytes out. The definition of what comes out is specs/Listing.antt.
#![tactic(auto)]

mod lines;

ghost use Rattle.std.specs.Prelude.{◌≡◌};
ghost use Rattle.session_lines.specs.Progress.{started, Feeds, FinishesWithRoom};

use line_text::kept::KEPT_BYTES;
use line_text::texts::ROOM;
use lines::serve_lines;
use machine::Queue;
use serving::Fed;

// What is carried from one part of the input to the next: the first bytes of the present line, the number of lines before it, and the queue.
#[derive(Clone, Copy)]
pub struct Session {
    pub line: [u8; KEPT_BYTES],
    pub held: usize,
    pub lines: u64,
    pub queue: Queue,
}

impl Session {
    pub fn start() -> Session
        ensures { result ≡ started }
    {
        Session {
            line: [0; KEPT_BYTES],
            held: 0,
            lines: 0,
            queue: Queue::empty(),
        }
    }
}

// Takes the input as far as the buffer has room for one more output line.
pub fn feed(
    session: Session,
    table: &mut [u16],
    scratch: &mut [u16],
    input: &[u8],
    out: &mut [u8],
) -> Fed<Session>
    ensures { Feeds session table.old scratch.old input.now
        result.state result.taken result.written table.new scratch.new out.new }
{
    serve_lines(session, table, scratch, input, out)
}

// At the end of the input a last line without its line feed is served, and how much was written is told. Where the buffer has no room for its output line
// nothing is done.
pub fn finish(
    session: Session,
    table: &mut [u16],
    scratch: &mut [u16],
    out: &mut [u8],
) -> Option<usize>
    ensures { FinishesWithRoom session table.old scratch.old out.old result table.new scratch.new out.new }
{
    if session.held == 0 {
        return Some(0);
    }
    if out.len() < ROOM {
        return None;
    }
    let fed = serve_lines(session, table, scratch, b"\n", out);
    Some(fed.written)
}
