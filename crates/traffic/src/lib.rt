// The traffic of the load bench: the workload that an input asks for (specs/Workload.antt), a generator of 32 bits, and the calls drawn from it
// (specs/Traffic.antt).
#![tactic(auto)]

pub mod input;

ghost use Rattle.std.specs.Prelude.{◌≡◌, ◌*◌, ◌%◌, ◌^◌};
ghost use Rattle.traffic.specs.Traffic.{moved, draw, operand_drawn, number_drawn, call_drawn};

use line_text::Request;
use machine::{FIRST_ATOM, RowCall};

const MULTIPLIER: u32 = 1664525;

const INCREMENT: u32 = 1013904223;

// What an input asks for: a seed, C and a number of calls.
#[derive(Clone, Copy)]
pub struct Workload {
    pub seed: u32,
    pub cells: u16,
    pub calls: u16,
}

// A call, and the state after its draws.
#[derive(Clone, Copy)]
pub struct Drawn {
    pub request: Request,
    pub state: u32,
}

// The product, modulo 2^32.
// Kept: document 01 of the project names an own wrapping product beside the supplied wrapping sum.
pub fn wrapping_mul_u32(a: u32, b: u32) -> u32
    ensures wraps { result ≡ (a * b) % 2 ^ 32 }
{
    (u64::from(a) * u64::from(b) % 4294967296) as u32
}

// The next state.
pub fn next_state(state: u32) -> u32
    ensures { result ≡ moved state }
{
    wrapping_mul_u32(MULTIPLIER, state).wrapping_add(INCREMENT)
}

// The generator: its state moves before each draw.
#[derive(Clone, Copy)]
struct Generator {
    state: u32,
}

impl Generator {
    // The upper half of the state that a move gives.
    #[tactic(auto, unfolding(crate::specs::Traffic::draw))]
    fn draw(&mut self) -> u16
        ensures state { self.new.state ≡ moved self.old.state }
        ensures value { result ≡ draw self.old.state }
    {
        let before = self.state;
        let after = next_state(before);
        self.state = after;
        (after / 65536) as u16
    }

    // The sum is made in 32 bits: C + 2 may pass 16.
    fn operand(&mut self, c: u16) -> u16
        ensures state { self.new.state ≡ moved self.old.state }
        ensures value { result ≡ operand_drawn c (draw self.old.state) }
    {
        let word = u32::from(self.draw()) % (u32::from(c) + 2);
        if word == u32::from(c) + 1 {
            FIRST_ATOM
        } else {
            word as u16
        }
    }

    #[tactic(auto, unfolding(crate::specs::Traffic::number_drawn))]
    fn number(&mut self) -> u16
        ensures state { self.new.state ≡ moved self.old.state }
        ensures value { result ≡ number_drawn (draw self.old.state) }
    {
        self.draw() % 4
    }
}

// The call first, then as many operands as it has, each from a move more.
pub fn draw_call(c: u16, state: u32) -> Drawn
    ensures { result ≡ call_drawn c state }
{
    let mut from = Generator { state };
    let kind = from.draw() % 8;
    let request = match kind {
        0 => Request::Row(RowCall::Car(from.operand(c))),
        1 => Request::Row(RowCall::Cdr(from.operand(c))),
        2 => Request::Row(RowCall::Cons(from.operand(c), from.operand(c))),
        3 => Request::Row(RowCall::SetLeft(from.operand(c), from.operand(c))),
        4 => Request::Row(RowCall::SetRight(from.operand(c), from.operand(c))),
        5 => Request::Row(RowCall::Up(from.operand(c), from.number())),
        6 => Request::Row(RowCall::Down(from.operand(c), from.number())),
        _ => Request::Step,
    };
    Drawn {
        request,
        state: from.state,
    }
}
