// A call's answer, as the paper's reply and as text.
ghost use Rattle.std.specs.Prelude.{◌≡◌, ◌<◌, ◌≤◌};
ghost use Rattle.machine.specs.Answers.{row_reply, fresh_reply, step_reply, audit_answer_reply};
ghost use Rattle.state_lines.specs.Replies.{paper_reply};

use crate::input::Call;
use crate::lines::Store;
use machine::{
    AuditAnswer, Finding, FreshAnswer, LengthAnswer, Refusal, RowAnswer, Rule, Step, StepAnswer,
};
use std::{fmt, io};

#[derive(Clone, Copy, Drop)]
pub enum Reply {
    Value(u16),
    Refused(Refusal),
    Idle,
    Applied(u16, u16),
    Sound,
    Broken(Rule),
}

impl From<RowAnswer> for Reply {
    ghost from_gives = { λ a r. paper_reply r ≡ row_reply a };

    fn from(answer: RowAnswer) -> Reply {
        match answer {
            Ok(word) => Reply::Value(word),
            Err(refusal) => Reply::Refused(refusal),
        }
    }
}

impl From<FreshAnswer> for Reply {
    ghost from_gives = { λ a r. paper_reply r ≡ fresh_reply a };

    fn from(answer: FreshAnswer) -> Reply {
        match answer {
            Ok(()) => Reply::Value(0),
            Err(refusal) => Reply::Refused(refusal),
        }
    }
}

impl From<StepAnswer> for Reply {
    ghost from_gives = { λ a r. paper_reply r ≡ step_reply a };

    fn from(answer: StepAnswer) -> Reply {
        match answer {
            Ok(Step::Idle) => Reply::Idle,
            Ok(Step::Applied { kind, freed }) => Reply::Applied(kind, freed),
            Err(refusal) => Reply::Refused(refusal),
        }
    }
}

impl From<AuditAnswer> for Reply {
    ghost from_gives = { λ a r. paper_reply r ≡ audit_answer_reply a };

    fn from(answer: AuditAnswer) -> Reply {
        match answer {
            Ok(Finding::Sound) => Reply::Sound,
            Ok(Finding::Broken(rule)) => Reply::Broken(rule),
            Err(refusal) => Reply::Refused(refusal),
        }
    }
}

// Writing a text: the value is its length, in 16 bits as all values of a list.
impl From<LengthAnswer> for Reply {
    fn from(answer: LengthAnswer) -> Reply {
        match answer {
            Ok(n) => Reply::Value((n % 65536) as u16),
            Err(refusal) => Reply::Refused(refusal),
        }
    }
}

impl fmt::Display for Reply {
    fn fmt<W: fmt::Write>(&self, f: &mut fmt::Formatter<W>) -> fmt::Result {
        match *self {
            Reply::Value(word) => write!(f, "OK {word}"),
            Reply::Refused(refusal) => write!(f, "NO {}", refusal.number()),
            Reply::Idle => write!(f, "IDLE"),
            Reply::Applied(kind, freed) => write!(f, "TAKEN {kind} {freed}"),
            Reply::Sound => write!(f, "SOUND"),
            Reply::Broken(rule) => write!(f, "BROKEN {}", rule.number()),
        }
    }
}

// What is shown of a call: its reply and the whole store after it, or the store's checksum; of one that the papers don't decide neither.
#[derive(Clone, Copy, PartialEq, Eq)]
pub enum Shown {
    Whole,
    Checksum,
    Undecided,
}

// A letter that no call's line has.
#[derive(Clone, Copy)]
pub struct NotShown;

impl TryFrom<u8> for Shown {
    type Error = NotShown;

    fn try_from(letter: u8) -> Result<Shown, NotShown> {
        match letter {
            b'C' => Ok(Shown::Whole),
            b'B' => Ok(Shown::Checksum),
            b'U' => Ok(Shown::Undecided),
            _ => Err(NotShown),
        }
    }
}

// The letter.
impl fmt::Display for Shown {
    fn fmt<W: fmt::Write>(&self, f: &mut fmt::Formatter<W>) -> fmt::Result {
        f.write_str(match self {
            Shown::Whole => "C",
            Shown::Checksum => "B",
            Shown::Undecided => "U",
        })
    }
}

// Writes a call's line with its reply, and what is shown of the store that it left. Gives the number of lines. Whether a write fails is not asked.
pub fn write_call<W: io::Write>(
    writer: &mut W,
    shown: Shown,
    call: Call,
    reply: Reply,
    store: &Store,
) -> usize
    ensures { (0 < result) × (result ≤ 4) }
{
    match shown {
        Shown::Whole => {
            let _ = writeln!(writer, "{shown} {call} {reply}\n{store}");
            4
        }
        Shown::Checksum => {
            let sum = store.checksum();
            let _ = writeln!(writer, "{shown} {call} {reply}\nH {sum}");
            2
        }
        Shown::Undecided => {
            let _ = writeln!(writer, "{shown} {call} UNDECIDED");
            1
        }
    }
}
