// The station's page: a line for each campaign and one for the takings, printed into a lent buffer.
#![tactic(auto)]

ghost use Rattle.std.specs.Prelude.{◌≡◌, ◌++◌, ◌∷◌, [], ◌*◌, ◌-◌, ◌^◌, ◌≤◌, ◌<◌, length};
ghost use Rattle.buffer.specs.Buffer.{Put, RoomFor};
ghost use Rattle.campaigns.specs.Campaign.{campaign_at};
ghost use Rattle.day.specs.Day.{state_of};
ghost use Rattle.page.specs.Page.{RowFits, line_length, cents, row_text, total_text};
ghost use Rattle.page.specs.Figures.{page_row};
ghost use Rattle.page.specs.Printing.{printing, printed};
ghost use Rattle.page.specs.Cited.{Lays, LineRoom, RowsRoom, campaign_lines};

use campaigns::entry::entry;
use campaigns::{Campaign, Head};
use day::Day;
use day::ops::audited;
use print::{put, put_number};
use refusal::Refusal;

// The bytes of a line with its byte 10.
pub const LINE: usize = 41;

// An amount of n cents that ends at the place to.
fn put_cents(out: &mut [u8], to: usize, n: u64) -> usize
    requires { RoomFor out.old to (length (cents n)) }
    ensures { Put out.old out.new result to (cents n) }
{
    let part = n % 100;
    out[to - 1] = b'0' + (part % 10) as u8;
    out[to - 2] = b'0' + (part / 10) as u8;
    out[to - 3] = b'.';
    put_number(out, to - 3, n / 100)
}

// The line of campaign i, which ends at the place to: its columns end 38, 32, 21, 7 and 1 bytes before.
fn put_row(out: &mut [u8], to: usize, i: u64, c: Campaign)
    requires { LineRoom out.old to × (i < 10 ^ 3) × RowFits (page_row c) }
    ensures { Lays out.old out.new (to - line_length) to
        (row_text i (page_row c) ++ (10 ∷ [])) }
{
    out[to - 1] = b'\n';
    put_number(out, to - 1, c.named);
    put_cents(out, to - 7, c.price * c.plays);
    put_cents(out, to - 21, c.price);
    put_number(out, to - 32, c.plays);
    put_number(out, to - 38, i);
}

// The lines of the first n campaigns, from the last to the first.
fn put_rows<'a>(n: usize, terms: &'a [u32; 128], counts: &'a [u16; 256], out: &mut [u8])
    requires { RowsRoom n (campaign_at terms.now counts.now) out.old }
    ensures { Lays out.old out.new 0 (line_length * n)
        (campaign_lines n (campaign_at terms.now counts.now)) }
{
    for i in (0..n).rev() {
        put_row(out, LINE * (i + 1), i as u64, entry(i, terms, counts));
    }
}

// The last line, which ends at the place to.
fn put_total(out: &mut [u8], to: usize, takings: u64)
    requires { LineRoom out.old to × (takings < 10 ^ 13) }
    ensures { Lays out.old out.new (to - line_length) to
        (total_text takings ++ (10 ∷ [])) }
{
    out[to - 1] = b'\n';
    put_cents(out, to - 7, takings);
    put(out, to - 36, b"total");
}

// The page of a state of any phase, at the front of out, and its length.
pub fn print_page<'a>(
    head: Head,
    terms: &'a [u32; 128],
    counts: &'a [u16; 256],
    out: &mut [u8],
) -> Result<usize, Refusal>
    ensures { (result ≡ printing (state_of head terms.now counts.now) out.old)
        × (out.new
        ≡ printed (state_of head terms.now counts.now) out.old) }
{
    let audit = audited(head, terms, counts).ok_or(Refusal::UNSOUND)?;
    let n = head.count as usize;
    let len = LINE * n + LINE;
    if out.len() < len {
        return Err(Refusal::NO_ROOM);
    }
    out[..len].fill(b' ');
    put_total(out, len, audit.takings);
    put_rows(n, terms, counts, out);
    Ok(len)
}

// The same of a state by value.
pub fn print_day(day: Day, out: &mut [u8]) -> Result<usize, Refusal>
    ensures { (result ≡ printing day out.old) × (out.new ≡ printed day out.old) }
{
    print_page(day.head(), &day.terms, &day.counts, out)
}
