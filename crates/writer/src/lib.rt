// Bracket lines: the writer of one record into a lent buffer.
#![tactic(auto, unfolding(
// the fields of a form
lines::specs::Form::template, lines::specs::Form::numbers, lines::specs::Form::numbers_after,
// its text
lines::specs::Form::filled, lines::specs::Form::piece,
// its ranges
lines::specs::Form::in_slots, lines::specs::Form::in_range))]

ghost use Rattle.std.specs.Prelude.{◌≡◌, ◌+◌, length};
ghost use Rattle.buffer.specs.Buffer.{Put, RoomFor};
ghost use Rattle.lines.specs.Form.{letter, slot_text};
ghost use Rattle.writer.specs.Writing.{writing, written};
ghost use Rattle.writer.specs.Cited.{line_size, sized, Puts, one_slot};

use lines::Record;
use lines::slots::Slot::{self, Input, Money, Names, Number, Question};
use print::{Size, put, put_field};
use refusal::Refusal;

// How long the record's line is: its form's own bytes with the byte 10, and its slots, counted from the last to the
// first. A number that is out of its range is told beside the length.
fn size_of(r: Record) -> Size
    ensures { result ≡ sized r }
{
    match r {
        Record::Plan { depth, width } => Size::fixed(25).slot(Input, width).slot(Input, depth),
        Record::Campaign { price, budget } => Size::fixed(30)
            .slot(Input, budget)
            .slot(Input, price),
        Record::Start | Record::Close => Size::fixed(8),
        Record::View(set) => Size::fixed(7).slot(Names, set),
        Record::Done => Size::fixed(5),
        Record::Play { campaign, paid } => Size::fixed(16)
            .slot(Number, paid)
            .slot(Slot::Campaign, campaign),
        Record::Nobody => Size::fixed(9),
        Record::Refused(number) => Size::fixed(11).slot(Question, number),
        Record::Closed {
            takings,
            claim,
            full,
        } => Size::fixed(37)
            .slot(Money, full)
            .slot(Money, claim)
            .slot(Money, takings),
        Record::Tally {
            campaign,
            plays,
            turns,
            age,
            named,
        } => Size::fixed(43)
            .slot(Number, named)
            .slot(Number, age)
            .slot(Number, turns)
            .slot(Number, plays)
            .slot(Slot::Campaign, campaign),
        Record::Pause(campaign) => Size::fixed(9).slot(Slot::Campaign, campaign),
        Record::Resume(campaign) => Size::fixed(10).slot(Slot::Campaign, campaign),
    }
}

// The line of a form with one slot, the last before the closing bracket. Bytes are put from the last to the first: the
// line ends at the place to.
fn put_one(out: &mut [u8], to: usize, word: &[u8], slot: Slot, n: u64) -> usize
    requires { RoomFor out.old to (length (slot_text (letter slot) n) + (length word.now + 2)) }
    ensures { Put out.old out.new result to (one_slot word.now (letter slot) n) }
{
    let to = put(out, to, b")\n");
    put_field(out, to, word, slot, n)
}

// The line of the plan form; and so for each form with several slots.
fn put_plan(out: &mut [u8], to: usize, depth: u64, width: u64) -> usize
    requires { RoomFor out.old to (line_size (Record.Plan depth width)) }
    ensures { Puts out.old out.new result to (Record.Plan depth width) }
{
    let to = put(out, to, b"))\n");
    let to = put_field(out, to, b") (width ", Input, width);
    put_field(out, to, b"(plan (depth ", Input, depth)
}

fn put_campaign(out: &mut [u8], to: usize, price: u64, budget: u64) -> usize
    requires { RoomFor out.old to (line_size (Record.Campaign price budget)) }
    ensures { Puts out.old out.new result to (Record.Campaign price budget) }
{
    let to = put(out, to, b"))\n");
    let to = put_field(out, to, b") (budget ", Input, budget);
    put_field(out, to, b"(campaign (price ", Input, price)
}

fn put_play(out: &mut [u8], to: usize, campaign: u64, paid: u64) -> usize
    requires { RoomFor out.old to (line_size (Record.Play campaign paid)) }
    ensures { Puts out.old out.new result to (Record.Play campaign paid) }
{
    let to = put(out, to, b"))\n");
    let to = put_field(out, to, b" (paid ", Number, paid);
    put_field(out, to, b"(play ", Slot::Campaign, campaign)
}

fn put_closed(out: &mut [u8], to: usize, takings: u64, claim: u64, full: u64) -> usize
    requires { RoomFor out.old to (line_size (Record.Closed takings claim full)) }
    ensures { Puts out.old out.new result to (Record.Closed takings claim full) }
{
    let to = put(out, to, b"))\n");
    let to = put_field(out, to, b") (full ", Money, full);
    let to = put_field(out, to, b") (claim ", Money, claim);
    put_field(out, to, b"(closed (takings ", Money, takings)
}

fn put_tally(
    out: &mut [u8],
    to: usize,
    campaign: u64,
    plays: u64,
    turns: u64,
    age: u64,
    named: u64,
) -> usize
    requires { RoomFor out.old to (line_size (Record.Tally campaign plays turns age named)) }
    ensures { Puts out.old out.new result to (Record.Tally campaign plays turns age named) }
{
    let to = put(out, to, b"))\n");
    let to = put_field(out, to, b") (named ", Number, named);
    let to = put_field(out, to, b") (age ", Number, age);
    let to = put_field(out, to, b") (turns ", Number, turns);
    let to = put_field(out, to, b" (plays ", Number, plays);
    put_field(out, to, b"(tally ", Slot::Campaign, campaign)
}

// The line of the record, ending at the place to.
fn put_record(r: Record, out: &mut [u8], to: usize) -> usize
    requires { RoomFor out.old to (line_size r) }
    ensures { Puts out.old out.new result to r }
{
    match r {
        Record::Plan { depth, width } => put_plan(out, to, depth, width),
        Record::Campaign { price, budget } => put_campaign(out, to, price, budget),
        Record::Start => put(out, to, b"(start)\n"),
        Record::View(set) => put_one(out, to, b"(view", Names, set),
        Record::Close => put(out, to, b"(close)\n"),
        Record::Done => put(out, to, b"(ok)\n"),
        Record::Play { campaign, paid } => put_play(out, to, campaign, paid),
        Record::Nobody => put(out, to, b"(nobody)\n"),
        Record::Refused(number) => put_one(out, to, b"(refused ", Question, number),
        Record::Closed {
            takings,
            claim,
            full,
        } => put_closed(out, to, takings, claim, full),
        Record::Tally {
            campaign,
            plays,
            turns,
            age,
            named,
        } => put_tally(out, to, campaign, plays, turns, age, named),
        Record::Pause(campaign) => put_one(out, to, b"(pause ", Slot::Campaign, campaign),
        Record::Resume(campaign) => put_one(out, to, b"(resume ", Slot::Campaign, campaign),
    }
}

// Writes the record's line at the front of out, after the ranges and the room are known. The answer is the length of
// the line with its byte 10, or the first question that fails.
pub fn write_line(r: Record, out: &mut [u8]) -> Result<usize, Refusal>
    ensures { (result ≡ writing r out.old) × (out.new ≡ written r out.old) }
{
    let size = size_of(r);
    if size.outside.is_some() {
        return Err(Refusal::NO_FORM);
    }
    if out.len() < size.len {
        return Err(Refusal::NO_ROOM);
    }
    put_record(r, out, size.len);
    Ok(size.len)
}
