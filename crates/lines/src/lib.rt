// Bracket lines: the records, and the reader of one line.
#![tactic(auto)]

pub mod scan;
pub mod slots;

ghost use Rattle.std.specs.Prelude.{◌≡◌, Err};
ghost use Rattle.std.specs.Option.{ok_or};
ghost use Rattle.refusal.specs.Refusal.{refusal};
ghost use Rattle.lines.specs.Reading.{held_or, forms, first_of, reading};

use crate::scan::{byte, ended, field};
use crate::slots::{MAX_LINE, Slot};
use refusal::Refusal;

// One line: an input line (the first five and the last two) or an output line. A view is a 64-bit set, bit i standing
// for campaign i.
#[derive(Clone, Copy)]
pub enum Record {
    Plan {
        depth: u64,
        width: u64,
    },
    Campaign {
        price: u64,
        budget: u64,
    },
    Start,
    View(u64),
    Close,
    Done,
    Play {
        campaign: u64,
        paid: u64,
    },
    Nobody,
    Refused(u64),
    Closed {
        takings: u64,
        claim: u64,
        full: u64,
    },
    Tally {
        campaign: u64,
        plays: u64,
        turns: u64,
        age: u64,
        named: u64,
    },
    Pause(u64),
    Resume(u64),
}

// A line of the plan form; and so for each form with slots.
fn read_plan(s: &[u8]) -> Option<Record>
    ensures { ok_or result (refusal 17) ≡ held_or (Err (refusal 17)) (Record.Plan 0 0) s.now }
{
    let (depth, s) = field(Some(s), b"(plan (depth ", Slot::Input)?;
    let (width, s) = field(Some(s), b") (width ", Slot::Input)?;
    ended(Some(s), b"))", Record::Plan { depth, width })
}

fn read_campaign(s: &[u8]) -> Option<Record>
    ensures { ok_or result (refusal 17) ≡ held_or (Err (refusal 17)) (Record.Campaign 0 0) s.now }
{
    let (price, s) = field(Some(s), b"(campaign (price ", Slot::Input)?;
    let (budget, s) = field(Some(s), b") (budget ", Slot::Input)?;
    ended(Some(s), b"))", Record::Campaign { price, budget })
}

fn read_play(s: &[u8]) -> Option<Record>
    ensures { ok_or result (refusal 17) ≡ held_or (Err (refusal 17)) (Record.Play 0 0) s.now }
{
    let (campaign, s) = field(Some(s), b"(play ", Slot::Campaign)?;
    let (paid, s) = field(Some(s), b" (paid ", Slot::Number)?;
    ended(Some(s), b"))", Record::Play { campaign, paid })
}

fn read_closed(s: &[u8]) -> Option<Record>
    ensures { ok_or result (refusal 17) ≡ held_or (Err (refusal 17)) (Record.Closed 0 0 0) s.now }
{
    let (takings, s) = field(Some(s), b"(closed (takings ", Slot::Money)?;
    let (claim, s) = field(Some(s), b") (claim ", Slot::Money)?;
    let (full, s) = field(Some(s), b") (full ", Slot::Money)?;
    ended(
        Some(s),
        b"))",
        Record::Closed {
            takings,
            claim,
            full,
        },
    )
}

fn read_tally(s: &[u8]) -> Option<Record>
    ensures { ok_or result (refusal 17) ≡ held_or (Err (refusal 17)) (Record.Tally 0 0 0 0 0) s.now }
{
    let (campaign, s) = field(Some(s), b"(tally ", Slot::Campaign)?;
    let (plays, s) = field(Some(s), b" (plays ", Slot::Number)?;
    let (turns, s) = field(Some(s), b") (turns ", Slot::Number)?;
    let (age, s) = field(Some(s), b") (age ", Slot::Number)?;
    let (named, s) = field(Some(s), b") (named ", Slot::Number)?;
    ended(
        Some(s),
        b"))",
        Record::Tally {
            campaign,
            plays,
            turns,
            age,
            named,
        },
    )
}

fn read_view(s: &[u8]) -> Option<Record>
    ensures { ok_or result (refusal 17) ≡ held_or (Err (refusal 17)) (Record.View 0) s.now }
{
    let (set, s) = field(Some(s), b"(view", Slot::Names)?;
    ended(Some(s), b")", Record::View(set))
}

fn read_refused(s: &[u8]) -> Option<Record>
    ensures { ok_or result (refusal 17) ≡ held_or (Err (refusal 17)) (Record.Refused 0) s.now }
{
    let (number, s) = field(Some(s), b"(refused ", Slot::Question)?;
    ended(Some(s), b")", Record::Refused(number))
}

fn read_pause(s: &[u8]) -> Option<Record>
    ensures { ok_or result (refusal 17) ≡ held_or (Err (refusal 17)) (Record.Pause 0) s.now }
{
    let (campaign, s) = field(Some(s), b"(pause ", Slot::Campaign)?;
    ended(Some(s), b")", Record::Pause(campaign))
}

fn read_resume(s: &[u8]) -> Option<Record>
    ensures { ok_or result (refusal 17) ≡ held_or (Err (refusal 17)) (Record.Resume 0) s.now }
{
    let (campaign, s) = field(Some(s), b"(resume ", Slot::Campaign)?;
    ended(Some(s), b")", Record::Resume(campaign))
}

// The first bytes leave one form, and only that one is tried.
fn read_form(s: &[u8]) -> Option<Record>
    ensures { ok_or result (refusal 17) ≡ first_of forms s.now }
{
    match byte(s, 1) {
        b'v' => read_view(s),
        b'p' => match byte(s, 4) {
            b'n' => read_plan(s),
            b's' => read_pause(s),
            _ => read_play(s),
        },
        b'c' => match byte(s, 6) {
            b')' => ended(Some(s), b"(close)", Record::Close),
            b'd' => read_closed(s),
            _ => read_campaign(s),
        },
        b's' => ended(Some(s), b"(start)", Record::Start),
        b'o' => ended(Some(s), b"(ok)", Record::Done),
        b'n' => ended(Some(s), b"(nobody)", Record::Nobody),
        b'r' => match byte(s, 3) {
            b's' => read_resume(s),
            _ => read_refused(s),
        },
        _ => read_tally(s),
    }
}

// Reads one line without its byte 10.
pub fn read_line(s: &[u8]) -> Result<Record, Refusal>
    ensures { result ≡ reading s.now }
{
    if s.len() > MAX_LINE {
        return Err(Refusal::LONG_LINE);
    }
    read_form(s).ok_or(Refusal::NO_FORM)
}
