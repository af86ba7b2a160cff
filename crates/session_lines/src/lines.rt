// Lines served where they lie in the input.
ghost use Rattle.std.specs.Prelude.{◌≡◌, ◌++◌, length, take};
ghost use Rattle.line_text.specs.Requests.{request_of};
ghost use Rattle.line_text.specs.Kept.{kept_bytes};
ghost use Rattle.session_lines.specs.Progress.{FeedsLines};

use crate::Session;
use base_ten::bytes::next_line_feed;
use line_text::Request;
use line_text::kept::{KEPT_BYTES, keep};
use line_text::parse::parse;
use line_text::texts::{Count, ROOM, put_line};
use serving::Fed;
use serving::requests::serve_line;

// What a line asks for that has begun with the bytes held and ends with this part.
fn request(line: &[u8; KEPT_BYTES], held: usize, part: &[u8]) -> Option<Request>
    requires { length line.now ≡ kept_bytes }
    ensures { result ≡ request_of (take held line.now ++ part.now) }
{
    if held == 0 {
        return parse(part);
    }
    let mut whole = *line;
    let size = keep(&mut whole, held, part);
    parse(&whole[..size])
}

// Each whole line is parsed where it lies, and what follows the last line feed is held.
pub fn serve_lines(
    session: Session,
    table: &mut [u16],
    scratch: &mut [u16],
    input: &[u8],
    out: &mut [u8],
) -> Fed<Session>
    ensures { FeedsLines session table.old scratch.old input.now
        result.state result.taken result.written table.new scratch.new out.new }
{
    let mut state = session;
    let mut queue = session.queue;
    let mut count = Count::new(state.lines);
    let mut taken = 0;
    let mut written = 0;
    let mut feed = next_line_feed(input, taken);
    // Kept: a `for` over lines is no plainer, since where the loop stops is told as the bytes taken.
    while feed < input.len() {
        if out.len() - written < ROOM {
            return Fed {
                state: Session { queue, ..state },
                taken,
                written,
            };
        }
        let asked = request(&state.line, state.held, &input[taken..feed]);
        state.held = 0;
        state.lines = count.next();
        let verdict = serve_line(table, &mut queue, scratch, asked);
        written = put_line(out, written, &count, verdict);
        taken = feed + 1;
        feed = next_line_feed(input, taken);
    }
    let held = state.held;
    state.held = keep(&mut state.line, held, &input[taken..]);
    Fed {
        state: Session { queue, ..state },
        taken: input.len(),
        written,
    }
}
