// What crosses to C: the reply as a struct of a tag and two numbers, and the queue as its words (`queues`). Neither an enum nor an array crosses by value.
#![tactic(auto)]

pub mod queues;

ghost use Rattle.std.specs.Prelude.{◌≡◌};
ghost use Rattle.machine.specs.Calls.{refused};
ghost use Rattle.machine.specs.Answers.{refusal_number, row_reply, fresh_reply, step_reply, audit_answer_reply};
ghost use Rattle.c_layout.specs.Replies.{reply, tag_number, told, LengthTold};

use machine::{
    AuditAnswer, Finding, FreshAnswer, LengthAnswer, Refusal, RowAnswer, Step, StepAnswer,
};

// In C `struct row_reply`.
// Kept: (a) the tag is a number here: C reads it, `reply` and `said` of specs/Replies go by it, and an enum has no `repr`.
#[repr(C)]
#[derive(Clone, Copy)]
pub struct Reply {
    pub tag: u16,
    pub number: u16,
    pub count: usize,
}

// The tags. None is 0, so that a reply that nobody filled in tells nothing.
#[derive(Clone, Copy)]
pub enum Tag {
    Value = 1,
    Refused,
    Idle,
    Applied,
    Sound,
    Broken,
    Text,
}

fn tagged(tag: Tag, number: u16, count: usize) -> Reply
    ensures { result ≡ reply (tag_number tag) number count }
{
    Reply {
        tag: tag as u16,
        number,
        count,
    }
}

fn refused(refusal: Refusal) -> Reply
    ensures { result ≡ told (refused (refusal_number refusal)) }
{
    tagged(Tag::Refused, refusal.number(), 0)
}

pub fn row_told(answer: RowAnswer) -> Reply
    ensures { result ≡ told (row_reply answer) }
{
    match answer {
        Ok(word) => tagged(Tag::Value, word, 0),
        Err(refusal) => refused(refusal),
    }
}

pub fn fresh_told(answer: FreshAnswer) -> Reply
    ensures { result ≡ told (fresh_reply answer) }
{
    match answer {
        Ok(()) => tagged(Tag::Value, 0, 0),
        Err(refusal) => refused(refusal),
    }
}

pub fn step_told(answer: StepAnswer) -> Reply
    ensures { result ≡ told (step_reply answer) }
{
    match answer {
        Ok(Step::Idle) => tagged(Tag::Idle, 0, 0),
        Ok(Step::Applied { kind, freed }) => tagged(Tag::Applied, kind, usize::from(freed)),
        Err(refusal) => refused(refusal),
    }
}

pub fn audit_told(answer: AuditAnswer) -> Reply
    ensures { result ≡ told (audit_answer_reply answer) }
{
    match answer {
        Ok(Finding::Sound) => tagged(Tag::Sound, 0, 0),
        Ok(Finding::Broken(rule)) => tagged(Tag::Broken, rule.number(), 0),
        Err(refusal) => refused(refusal),
    }
}

pub fn length_told(answer: LengthAnswer) -> Reply
    ensures { LengthTold answer result }
{
    match answer {
        Ok(bytes) => tagged(Tag::Text, 0, bytes),
        Err(refusal) => refused(refusal),
    }
}
