// The day's record: its state and the eight operations on it, which change the lent arrays of its campaigns where they
// stand.
#![tactic(auto)]

pub mod in_place;
pub mod ops;
pub mod value;
pub mod view;

ghost use Rattle.std.specs.Prelude.{◌≡◌, replicate};
ghost use Rattle.day.specs.Day.{state_of, blank};
ghost use Rattle.day.specs.Calls.{number};
ghost use Rattle.day.specs.Cited.{refusing};

use campaigns::{Head, Phase, Plan, Terms, View};
use refusal::Refusal;

// The whole state, for those who hold it by value. The operations take it by its head and its two arrays.
#[derive(Clone, Copy, Debug, PartialEq, Eq)]
pub struct Day {
    pub phase: Phase,
    pub plan: Plan,
    pub count: u64,
    pub accepted: u64,
    // the paused marks: bit i is campaign i's
    pub paused: u64,
    pub terms: [u32; 128],
    pub counts: [u16; 256],
}

#[derive(Clone, Copy, Debug, PartialEq, Eq)]
pub enum Answer {
    Refused(u64),
    Done,
    Played {
        campaign: u64,
        paid: u64,
    },
    Nobody,
    Tallied {
        plays: u64,
        turns: u64,
        age: u64,
        named: u64,
    },
    Closing {
        takings: u64,
        claim: u64,
        full: u64,
    },
}

impl Answer {
    // The number of the question that failed, or 0 where the call is accepted.
    pub fn number(self) -> u64
        ensures { result ≡ number self }
    {
        match self {
            Answer::Refused(question) => question,
            _ => 0,
        }
    }
}

// The state handed back, and the answer beside it.
#[derive(Clone, Copy, Debug, PartialEq, Eq)]
pub struct Outcome {
    pub day: Day,
    pub answer: Answer,
}

// The same of an operation in place: what changes of the campaigns has changed in the lent arrays.
#[derive(Clone, Copy, Debug, PartialEq, Eq)]
pub struct Step {
    pub head: Head,
    pub answer: Answer,
}

// What is asked of the day.
#[derive(Clone, Copy, Debug, PartialEq, Eq)]
pub enum Call {
    Open(Plan),
    Add(Terms),
    Start,
    Show(View),
    Tally(u64),
    Close,
    Pause(u64),
    Resume(u64),
}

impl Step {
    pub fn refused(head: Head, refusal: Refusal) -> Step
        ensures { result ≡ refusing head refusal.question }
    {
        Step {
            head,
            answer: Answer::Refused(refusal.question),
        }
    }
}

// The head of the blank state, whose arrays are all zero: Closed, depth 1, width 1, no campaigns.
pub fn blank() -> Head
    ensures { state_of result (replicate 128 0) (replicate 256 0) ≡ blank }
{
    Head {
        phase: Phase::Closed(0),
        plan: Plan { depth: 1, width: 1 },
        count: 0,
        accepted: 0,
        paused: 0,
    }
}
