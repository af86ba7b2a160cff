// The load program's lines: an input's bytes in, the calls that it asks for and their replies out. The definition of what comes out is specs/Listing.antt.
#![tactic(auto)]

mod lines;

ghost use Rattle.std.specs.Prelude.{◌≡◌};
ghost use Rattle.load_lines.specs.Progress.{started, is_more, Writes};

use call_text::LINE_ROOM;
use line_text::texts::ROOM;
use lines::{bad_line, serve_calls};
use machine::Queue;
use traffic::Workload;

// The most bytes of a call's line and its reply line.
pub const BOTH_ROOM: usize = LINE_ROOM + ROOM;

// What is carried from one part of the output to the next: what was asked, the generator's state, the calls made (fresh counts), and the queue.
#[derive(Clone, Copy)]
pub struct Load {
    pub asked: Option<Workload>,
    pub state: u32,
    pub done: u32,
    pub queue: Queue,
}

// After a part of the output: the load, and how much was written.
#[derive(Clone, Copy)]
pub struct Written {
    pub load: Load,
    pub written: usize,
}

impl Load {
    pub fn start(asked: Option<Workload>) -> Load
        ensures { result ≡ started asked }
    {
        let state = match asked {
            Some(workload) => workload.seed,
            None => 0,
        };
        Load {
            asked,
            state,
            done: 0,
            queue: Queue::empty(),
        }
    }

    // Nothing is left to write once more lines are done than there are calls. What is no workload has one line, as a load of no calls has.
    pub fn is_more(&self) -> bool
        ensures { result ≡ is_more self.now }
    {
        let calls = match self.asked {
            Some(workload) => workload.calls,
            None => 0,
        };
        self.done <= u32::from(calls)
    }
}

// Makes calls as far as the buffer has room for one more with its reply.
pub fn next(load: Load, table: &mut [u16], scratch: &mut [u16], out: &mut [u8]) -> Written
    ensures { Writes load table.old scratch.old result.load result.written table.new scratch.new out.new }
{
    match load.asked {
        Some(workload) => serve_calls(load, workload, table, scratch, out),
        None => bad_line(load, out),
    }
}
