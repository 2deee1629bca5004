// The lines of an answer, written at a place of a lent buffer.
ghost use Rattle.std.specs.Prelude.{◌≡◌, true, ◌+◌, ◌≤◌, ◌<◌, length};
ghost use Rattle.lines.specs.Limits.{answer_room};
ghost use Rattle.lines.specs.Form.{is_output, in_range};
ghost use Rattle.writer.specs.Writing.{line};
ghost use Rattle.buffer.specs.Buffer.{Put};
ghost use Rattle.campaigns.specs.Limits.{max_campaigns};
ghost use Rattle.campaigns.specs.Campaign.{campaign_at};
ghost use Rattle.reply.specs.Reply.{tally_record, tally_records, answer_records, is_closing, record_lines};
ghost use Rattle.reply.specs.Cited.{answer_in_range, tallies_room};

use campaigns::entry::entry;
use day::Answer;
use lines::Record;

// The line of an output form that is in its ranges, at the place at.
fn write_record(r: Record, out: &mut [u8], at: usize) -> usize
    requires { (in_range r ≡ true) × (is_output r ≡ true) × (at + answer_room ≤ length out.old) }
    ensures { Put out.old out.new at result (line r) }
{
    at + writer::write_line(r, &mut out[at..]).unwrap()
}

// The answer's first line, or none for a tally, which no line asks for.
#[tactic(auto, using(crate::proofs::Writes::one_record))]
pub fn write_answer(answer: Answer, out: &mut [u8], at: usize) -> usize
    requires { (answer_in_range answer ≡ true) × (at + answer_room ≤ length out.old) }
    ensures { Put out.old out.new at result (record_lines (answer_records answer))
        × (result ≤ at + answer_room) }
{
    match answer {
        Answer::Refused(question) => write_record(Record::Refused(question), out, at),
        Answer::Done => write_record(Record::Done, out, at),
        Answer::Played { campaign, paid } => write_record(Record::Play { campaign, paid }, out, at),
        Answer::Nobody => write_record(Record::Nobody, out, at),
        Answer::Tallied { .. } => at,
        Answer::Closing {
            takings,
            claim,
            full,
        } => write_record(
            Record::Closed {
                takings,
                claim,
                full,
            },
            out,
            at,
        ),
    }
}

// After such an answer come the tallies.
pub fn closes(answer: Answer) -> bool
    ensures { result ≡ is_closing answer }
{
    matches!(answer, Answer::Closing { .. })
}

// The tally of campaign i.
#[tactic(auto, using(crate::proofs::Ranges::tally_range))]
fn tally_record<'a>(i: u64, terms: &'a [u32; 128], counts: &'a [u16; 256]) -> Record
    requires { i < max_campaigns }
    ensures { (result ≡ tally_record i (campaign_at terms.now counts.now i))
        × (in_range result ≡ true) }
{
    let c = entry(i as usize, terms, counts);
    Record::Tally {
        campaign: i,
        plays: c.plays,
        turns: c.turns,
        age: c.age,
        named: c.named,
    }
}

// The tallies of the first n campaigns, in number order.
pub fn write_tallies<'a>(
    n: u64,
    terms: &'a [u32; 128],
    counts: &'a [u16; 256],
    out: &mut [u8],
    at: usize,
) -> usize
    requires { (n ≤ max_campaigns) × (at + tallies_room ≤ length out.old) }
    ensures { Put out.old out.new at result
        (record_lines (tally_records (campaign_at terms.now counts.now) n))
        × (result ≤ at + tallies_room) }
{
    let mut to = at;
    for i in 0..n {
        let tally = tally_record(i, terms, counts);
        to = write_record(tally, out, to);
    }
    to
}
