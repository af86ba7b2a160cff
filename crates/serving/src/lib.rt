// What an output line says of an answer of the store, and requests served.
#![tactic(auto)]

pub mod requests;

ghost use Rattle.std.specs.Prelude.{◌≡◌};
ghost use Rattle.machine.specs.Calls.{refused};
ghost use Rattle.machine.specs.Answers.{refusal_number, row_reply, fresh_reply, step_reply};
ghost use Rattle.line_text.specs.Verdicts.{verdict_of};

use line_text::Verdict;
use machine::{FreshAnswer, Refusal, RowAnswer, Step, StepAnswer};

// Of a refused call, whichever.
fn refused(refusal: Refusal) -> Verdict
    ensures { result ≡ verdict_of (refused (refusal_number refusal)) }
{
    Verdict::No(refusal.number())
}

pub fn fresh_verdict(answer: FreshAnswer) -> Verdict
    ensures { result ≡ verdict_of (fresh_reply answer) }
{
    match answer {
        Ok(()) => Verdict::Ok(0),
        Err(refusal) => refused(refusal),
    }
}

pub fn row_verdict(answer: RowAnswer) -> Verdict
    ensures { result ≡ verdict_of (row_reply answer) }
{
    match answer {
        Ok(w) => Verdict::Ok(w),
        Err(refusal) => refused(refusal),
    }
}

// Of a step that was taken.
fn stepped(step: Step) -> Verdict
    ensures { result ≡ verdict_of (step_reply (Ok step)) }
{
    match step {
        Step::Idle => Verdict::Idle,
        Step::Applied { kind: _, freed } => Verdict::Ok(freed),
    }
}

pub fn step_verdict(answer: StepAnswer) -> Verdict
    ensures { result ≡ verdict_of (step_reply answer) }
{
    match answer {
        Ok(step) => stepped(step),
        Err(refusal) => refused(refusal),
    }
}

// After a part of the input: what is carried on, how much was taken, and how much was written.
#[derive(Clone, Copy)]
pub struct Fed<S> {
    pub state: S,
    pub taken: usize,
    pub written: usize,
}
