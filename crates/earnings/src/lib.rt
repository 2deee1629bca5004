// What the day took beside what it could have earned, as figures and as a line.
#![tactic(auto)]

pub mod ratio;

ghost use Rattle.std.specs.Prelude.{◌≡◌, ◌≤◌, length};
ghost use Rattle.buffer.specs.Buffer.{Put};
ghost use Rattle.lines.specs.declared.Record.TheVariants.{Refused};
ghost use Rattle.writer.specs.Writing.{line};
ghost use Rattle.day.specs.Day.{state_of};
ghost use Rattle.earnings.specs.Earnings.{earned, report_room, figures_text, earnings_text};

use crate::ratio::lowest;
use campaigns::Head;
use day::Day;
use day::ops::audited;
use lines::slots::Slot;
use optimum::search;
use print::{put, put_field};
use refusal::Refusal;

// What the day took, and the greatest takings.
#[derive(Clone, Copy)]
pub struct Figures {
    pub takings: u64,
    pub greatest: u64,
}

// How many bytes hold every line; a line ends behind the last of them.
pub const ROOM: usize = 128;

// The figures of a state and these views, with lent entries for 256 views and 64 campaigns.
fn earned_at<'a>(
    head: Head,
    terms: &'a [u32; 128],
    counts: &'a [u16; 256],
    views: &'a [u64],
) -> Result<Figures, Refusal>
    ensures { result ≡ earned (state_of head terms.now counts.now) views.now }
{
    let audit = audited(head, terms, counts).ok_or(Refusal::UNSOUND)?;
    let mut allotment: [u64; 256] = [0; 256];
    let mut surplus: [u64; 64] = [0; 64];
    let mut worth: [u64; 256] = [0; 256];
    let greatest = search(
        head,
        terms,
        counts,
        views,
        &mut allotment,
        &mut surplus,
        &mut worth,
    )?;
    Ok(Figures {
        takings: audit.takings,
        greatest,
    })
}

// The same of a state by value.
pub fn earned(day: Day, views: &[u64]) -> Result<Figures, Refusal>
    ensures { result ≡ earned day views.now }
{
    earned_at(day.head(), &day.terms, &day.counts, views)
}

// The line of two figures: it is put from its last byte to its first.
fn put_figures(out: &mut [u8], figures: Figures) -> usize
    requires { report_room ≤ length out.old }
    ensures { Put out.old out.new result report_room (figures_text figures.takings figures.greatest) }
{
    let Figures { takings, greatest } = figures;
    let ratio = lowest(takings, greatest);
    let to = put(out, ROOM, b")\n");
    let to = put_field(out, to, b"/", Slot::Money, ratio.denominator);
    let to = put_field(out, to, b") (ratio ", Slot::Money, ratio.numerator);
    let to = put_field(out, to, b") (greatest ", Slot::Money, greatest);
    put_field(out, to, b"(takings ", Slot::Money, takings)
}

// The line of a refusal.
fn put_refusal(out: &mut [u8], refusal: Refusal) -> usize
    requires { report_room ≤ length out.old }
    ensures { Put out.old out.new result report_room (line (Refused refusal.question)) }
{
    let to = put(out, ROOM, b")\n");
    put_field(out, to, b"(refused ", Slot::Question, refusal.question)
}

// The line: it ends at the place ROOM, and the place where it begins is given.
pub fn put_earnings(out: &mut [u8], earnings: Result<Figures, Refusal>) -> usize
    requires { report_room ≤ length out.old }
    ensures { Put out.old out.new result report_room (earnings_text earnings) }
{
    match earnings {
        Ok(figures) => put_figures(out, figures),
        Err(refusal) => put_refusal(out, refusal),
    }
}
