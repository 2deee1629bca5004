// Statuses, heads, answers, records and streams as words.
#![tactic(auto)]

ghost use Rattle.std.specs.Prelude.{◌≡◌, true, false, MatchResult};
ghost use Rattle.encoding.specs.Encoding.{no_head, is_head, phase_of, tag_of, held_by, head_in, head_words};
ghost use Rattle.encoding.specs.Encoding.{answer_after, is_form, record_of, record_words, is_stream};

use campaigns::{Head, Phase, Plan};
use day::Answer;
use lines::Record;
use lines::slots::LINE_BUFFER;

// A status: 0 where a call is accepted, the number of the question that failed where it is refused, from 100 on where
// what was lent is no state, no record, no stream or too little, and 104 where the check rejects. No refusal has a
// number above 99.
pub const STATUS_ACCEPTED: u64 = 0;

// The seven words are no head of a state.
pub const STATUS_NO_HEAD: u64 = 100;

// The first word of a record is no form's number.
pub const STATUS_NO_FORM: u64 = 101;

// More bytes of a line are kept than there are.
pub const STATUS_NO_STREAM: u64 = 102;

// There is no room for the longest answer.
pub const STATUS_NO_ROOM: u64 = 103;

// What was lent to the check is no allotment with figures that fit it.
pub const STATUS_NO_FIT: u64 = 104;

// The words of a head.
pub const HEAD_PHASE: usize = 0;

pub const HEAD_TAKINGS: usize = 1;

pub const HEAD_DEPTH: usize = 2;

pub const HEAD_WIDTH: usize = 3;

pub const HEAD_CAMPAIGNS: usize = 4;

pub const HEAD_VIEWS: usize = 5;

pub const HEAD_PAUSED: usize = 6;

// The first of them.
pub const PHASE_FILLING: u64 = 0;

pub const PHASE_RUNNING: u64 = 1;

pub const PHASE_CLOSED: u64 = 2;

// The first word of an answer.
pub const ANSWER_DONE: u64 = 1;

pub const ANSWER_PLAYED: u64 = 2;

pub const ANSWER_NOBODY: u64 = 3;

pub const ANSWER_TALLIED: u64 = 4;

pub const ANSWER_CLOSING: u64 = 5;

// The words of a stream.
pub const STREAM_KEPT: usize = 0;

pub const STREAM_TAKEN: usize = 1;

pub const STREAM_WRITTEN: usize = 2;

// The first word of a record.
pub const FORM_PLAN: u64 = 0;

pub const FORM_CAMPAIGN: u64 = 1;

pub const FORM_START: u64 = 2;

pub const FORM_VIEW: u64 = 3;

pub const FORM_CLOSE: u64 = 4;

pub const FORM_OK: u64 = 5;

pub const FORM_PLAY: u64 = 6;

pub const FORM_NOBODY: u64 = 7;

pub const FORM_REFUSED: u64 = 8;

pub const FORM_CLOSED: u64 = 9;

pub const FORM_TALLY: u64 = 10;

pub const FORM_PAUSE: u64 = 11;

pub const FORM_RESUME: u64 = 12;

// Whether seven words are the head of a state: a phase, and takings only where it is Closed.
pub fn is_head(words: &[u64; 7]) -> bool
    ensures { result ≡ is_head words.now }
{
    let phase = words[HEAD_PHASE];
    let held = words[HEAD_TAKINGS];
    (phase <= PHASE_CLOSED) & ((phase == PHASE_CLOSED) | (held == 0))
}

#[tactic(auto, unfolding(crate::specs::Encoding::phase_of))]
fn phase_of(tag: u64, held: u64) -> Phase
    ensures { result ≡ phase_of tag held }
{
    match tag {
        PHASE_FILLING => Phase::Filling,
        PHASE_RUNNING => Phase::Running,
        _ => Phase::Closed(held),
    }
}

// The head that seven words give.
pub fn head_of(words: &[u64; 7]) -> Head
    ensures { result ≡ head_in words.now }
{
    Head {
        phase: phase_of(words[HEAD_PHASE], words[HEAD_TAKINGS]),
        plan: Plan {
            depth: words[HEAD_DEPTH],
            width: words[HEAD_WIDTH],
        },
        count: words[HEAD_CAMPAIGNS],
        accepted: words[HEAD_VIEWS],
        paused: words[HEAD_PAUSED],
    }
}

// The same, or the status of words that are no head.
pub fn given_head(words: &[u64; 7]) -> Result<Head, u64>
    ensures { MatchResult result (λ head. (is_head words.now ≡ true) × (head ≡ head_in words.now))
        (λ status. (is_head words.now ≡ false) × (status ≡ no_head)) }
{
    if !is_head(words) {
        return Err(STATUS_NO_HEAD);
    }
    Ok(head_of(words))
}

fn tag_of(phase: Phase) -> u64
    ensures { result ≡ tag_of phase }
{
    match phase {
        Phase::Filling => PHASE_FILLING,
        Phase::Running => PHASE_RUNNING,
        Phase::Closed(_) => PHASE_CLOSED,
    }
}

fn held_by(phase: Phase) -> u64
    ensures { result ≡ held_by phase }
{
    match phase {
        Phase::Closed(takings) => takings,
        _ => 0,
    }
}

// The seven words of a head.
pub fn head_words(head: Head) -> [u64; 7]
    ensures { result ≡ head_words head }
{
    [
        tag_of(head.phase),
        held_by(head.phase),
        head.plan.depth,
        head.plan.width,
        head.count,
        head.accepted,
        head.paused,
    ]
}

// The five words of an answer: its kind and four values, 0 where it has fewer. A refusal has none, and leaves those
// that were there: its number is the status.
#[tactic(auto, unfolding(crate::specs::Encoding::answer_after))]
pub fn answer_after(answer: Answer, before: [u64; 5]) -> [u64; 5]
    ensures { result ≡ answer_after answer before }
{
    match answer {
        Answer::Refused(_) => before,
        Answer::Done => [ANSWER_DONE, 0, 0, 0, 0],
        Answer::Played { campaign, paid } => [ANSWER_PLAYED, campaign, paid, 0, 0],
        Answer::Nobody => [ANSWER_NOBODY, 0, 0, 0, 0],
        Answer::Tallied {
            plays,
            turns,
            age,
            named,
        } => [ANSWER_TALLIED, plays, turns, age, named],
        Answer::Closing {
            takings,
            claim,
            full,
        } => [ANSWER_CLOSING, takings, claim, full, 0],
    }
}

// Whether the first of six words is the number of a form.
#[tactic(auto, unfolding(lines::specs::Reading::forms))]
pub fn is_form(words: &[u64; 6]) -> bool
    ensures { result ≡ is_form words.now }
{
    words[0] <= FORM_RESUME
}

// The record that six words give.
#[tactic(auto, unfolding(lines::specs::Reading::forms, lines::specs::Reading::made, crate::specs::Encoding::record_of))]
pub fn record_of(words: &[u64; 6]) -> Record
    requires { is_form words.now ≡ true }
    ensures { result ≡ record_of words.now }
{
    let a = words[1];
    let b = words[2];
    let c = words[3];
    match words[0] {
        FORM_PLAN => Record::Plan { depth: a, width: b },
        FORM_CAMPAIGN => Record::Campaign {
            price: a,
            budget: b,
        },
        FORM_START => Record::Start,
        FORM_VIEW => Record::View(a),
        FORM_CLOSE => Record::Close,
        FORM_OK => Record::Done,
        FORM_PLAY => Record::Play {
            campaign: a,
            paid: b,
        },
        FORM_NOBODY => Record::Nobody,
        FORM_REFUSED => Record::Refused(a),
        FORM_CLOSED => Record::Closed {
            takings: a,
            claim: b,
            full: c,
        },
        FORM_TALLY => Record::Tally {
            campaign: a,
            plays: b,
            turns: c,
            age: words[4],
            named: words[5],
        },
        FORM_PAUSE => Record::Pause(a),
        _ => Record::Resume(a),
    }
}

// The six words of a record: its form's number and its numbers, 0 where it has fewer than five.
#[tactic(auto, unfolding(lines::specs::Form::numbers, crate::specs::Encoding::record_words))]
pub fn record_words(r: Record) -> [u64; 6]
    ensures { result ≡ record_words r }
{
    match r {
        Record::Plan { depth, width } => [FORM_PLAN, depth, width, 0, 0, 0],
        Record::Campaign { price, budget } => [FORM_CAMPAIGN, price, budget, 0, 0, 0],
        Record::Start => [FORM_START, 0, 0, 0, 0, 0],
        Record::View(set) => [FORM_VIEW, set, 0, 0, 0, 0],
        Record::Close => [FORM_CLOSE, 0, 0, 0, 0, 0],
        Record::Done => [FORM_OK, 0, 0, 0, 0, 0],
        Record::Play { campaign, paid } => [FORM_PLAY, campaign, paid, 0, 0, 0],
        Record::Nobody => [FORM_NOBODY, 0, 0, 0, 0, 0],
        Record::Refused(number) => [FORM_REFUSED, number, 0, 0, 0, 0],
        Record::Closed {
            takings,
            claim,
            full,
        } => [FORM_CLOSED, takings, claim, full, 0, 0],
        Record::Tally {
            campaign,
            plays,
            turns,
            age,
            named,
        } => [FORM_TALLY, campaign, plays, turns, age, named],
        Record::Pause(campaign) => [FORM_PAUSE, campaign, 0, 0, 0, 0],
        Record::Resume(campaign) => [FORM_RESUME, campaign, 0, 0, 0, 0],
    }
}

// Whether no more bytes of a line are kept than there are.
pub fn is_stream(words: &[u64; 3]) -> bool
    ensures { result ≡ is_stream words.now }
{
    words[STREAM_KEPT] <= LINE_BUFFER as u64
}
