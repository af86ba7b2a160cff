// Calls drawn and served, each with its two lines.
ghost use Rattle.std.specs.Prelude.{◌≡◌, Some, None, List, ℕ};
ghost use Rattle.load_lines.specs.Progress.{turn, Writes};

use crate::{BOTH_ROOM, Load, Written};
use base_ten::put::put_word;
use call_text::put_call_line;
use line_text::Request;
use line_text::texts::{Count, put_line};
use serving::requests::serve;
use traffic::{Drawn, Workload, draw_call};

// The call after so many: fresh is the first.
fn next_call(cells: u16, state: u32, done: u32) -> Drawn
    ensures { result ≡ turn cells state done }
{
    if done == 0 {
        return Drawn {
            request: Request::Fresh(cells),
            state,
        };
    }
    draw_call(cells, state)
}

// The one line of an input that is no workload: with it all is done.
pub fn bad_line(load: Load, out: &mut [u8]) -> Written
    requires { load.asked ≡ None }
    ensures { (t scratch : List ℕ) → Writes load t scratch result.load result.written t scratch out.new }
{
    if 0 < load.done || out.len() < BOTH_ROOM {
        return Written { load, written: 0 };
    }
    let written = put_word(out, 0, b"BAD\n");
    Written {
        load: Load { done: 1, ..load },
        written,
    }
}

pub fn serve_calls(
    load: Load,
    workload: Workload,
    table: &mut [u16],
    scratch: &mut [u16],
    out: &mut [u8],
) -> Written
    requires { load.asked ≡ Some workload }
    ensures { Writes load table.old scratch.old result.load result.written table.new scratch.new out.new }
{
    let mut present = load;
    let mut count = Count::new(u64::from(present.done));
    let mut written = 0;
    // Kept: how many calls are made is part of the load that is handed on, so that a `for` would count them a second time.
    while present.done <= u32::from(workload.calls) {
        if out.len() - written < BOTH_ROOM {
            return Written {
                load: present,
                written,
            };
        }
        let drawn = next_call(workload.cells, present.state, present.done);
        present.state = drawn.state;
        present.done += 1;
        count.next();
        written = put_call_line(out, written, Some(drawn.request));
        let verdict = serve(table, &mut present.queue, scratch, drawn.request);
        written = put_line(out, written, &count, verdict);
    }
    Written {
        load: present,
        written,
    }
}
