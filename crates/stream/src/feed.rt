// A block of input split at byte 10, and each line answered as it ends.
ghost use Rattle.std.specs.Prelude.{◌≡◌, ◌++◌, min, ◌-◌, ◌≤◌, length, take, replicate};
ghost use Rattle.campaigns.specs.Cited.{Sized};
ghost use Rattle.lines.specs.Limits.{line_buffer};
ghost use Rattle.day.specs.Day.{state_of};
ghost use Rattle.day.specs.Cited.{Ready};
ghost use Rattle.batch.specs.Cited.{position};
ghost use Rattle.stream.specs.Stream.{new_stream, session, stream_at, fed_at, Feeds, Finishes};
ghost use Rattle.stream.specs.Cited.{Processed};

use batch::{Cursor, keep, run_batch};
use campaigns::Head;
use day::Day;
use day::ops::prepare;
use lines::slots::LINE_BUFFER;
use reply::ROOM;
use reply::line::Turn;

// The state, and the first bytes of a line that has not ended: so many are kept, 201 at most. What feeding hands back
// has zero bytes behind them.
#[derive(Clone, Copy)]
pub struct Stream {
    pub day: Day,
    pub pending: [u8; LINE_BUFFER],
    pub kept: usize,
}

// The stream after a block, how many bytes of the block were taken, and how many bytes answer them.
#[derive(Clone, Copy)]
pub struct Fed {
    pub stream: Stream,
    pub consumed: usize,
    pub written: usize,
}

// The same of a stream in lent memory: the head of its state, and how many bytes of a line are kept.
#[derive(Clone, Copy)]
pub struct Moved {
    pub head: Head,
    pub kept: usize,
    pub consumed: usize,
    pub written: usize,
}

// Every line that ends in the input answered and the rest kept, while there is room for the longest answer.
fn run<'a>(
    first: Cursor,
    pending: &mut [u8],
    input: &[u8],
    out: &mut [u8],
    list: &'a mut [u64; 33],
    terms: &'a mut [u32; 128],
    counts: &'a mut [u16; 256],
) -> Cursor
    requires sizes { (first.kept ≤ line_buffer) × (length pending.old ≡ line_buffer)
        × (first.from ≡ 0) × (first.turn.at ≡ 0) }
    requires ready { Ready first.turn.sound first.turn.head list.old terms.old counts.old }
    ensures { Processed (session (state_of first.turn.head terms.old counts.old)
        pending.old first.kept) input.now out.old out.new
        (position result terms.new counts.new) pending.new
        × (length pending.new ≡ line_buffer) }
{
    let t = run_batch(first, pending, input, out, list, terms, counts);
    if t.from == input.len() || out.len() - t.turn.at < ROOM {
        return t;
    }
    let n = keep(pending, t.kept, &input[t.from..]);
    Cursor {
        kept: n,
        from: input.len(),
        ..t
    }
}

// No more bytes are kept of a line than its buffer has.
pub fn at_most_held(n: usize) -> usize
    ensures { result ≡ min n line_buffer }
{
    n.min(LINE_BUFFER)
}

// Whether the state is sound is asked here, once for all lines of a block.
fn begin<'a>(
    head: Head,
    list: &'a mut [u64; 33],
    terms: &'a [u32; 128],
    counts: &'a [u16; 256],
) -> Turn
    requires { Sized terms.now counts.now }
    ensures { (result.head ≡ head) × (result.at ≡ 0)
        × Ready result.sound result.head list.new terms.now counts.now }
{
    let sound = prepare(head, list, terms, counts);
    Turn { head, sound, at: 0 }
}

// Zero bytes behind the first n.
fn clear(pending: &mut [u8], n: usize)
    requires { (n ≤ line_buffer) × (length pending.old ≡ line_buffer) }
    ensures { pending.new ≡ take n pending.old ++ replicate (line_buffer - n) 0 }
{
    pending[n..].fill(0);
}

// A block of input, as far as out has room for the longest answer.
pub fn feed_in_place<'a>(
    head: Head,
    kept: usize,
    pending: &mut [u8],
    input: &[u8],
    out: &mut [u8],
    terms: &'a mut [u32; 128],
    counts: &'a mut [u16; 256],
) -> Moved
    requires { length pending.old ≡ line_buffer }
    ensures { Feeds (stream_at head terms.old counts.old pending.old kept)
        input.now out.old out.new
        (fed_at result terms.new counts.new pending.new) }
{
    let mut list = [0; 33];
    let first = Cursor {
        turn: begin(head, &mut list, terms, counts),
        kept: at_most_held(kept),
        from: 0,
    };
    let last = run(first, pending, input, out, &mut list, terms, counts);
    clear(pending, last.kept);
    Moved {
        head: last.turn.head,
        kept: last.kept,
        consumed: last.from,
        written: last.turn.at,
    }
}

// The end of input: a last line without byte 10 counts if it has bytes. It is answered as if that byte followed.
pub fn finish_in_place<'a>(
    head: Head,
    kept: usize,
    pending: &mut [u8],
    out: &mut [u8],
    terms: &'a mut [u32; 128],
    counts: &'a mut [u16; 256],
) -> Moved
    requires { length pending.old ≡ line_buffer }
    ensures { Finishes (stream_at head terms.old counts.old pending.old kept)
        out.old out.new
        (fed_at result terms.new counts.new pending.new) }
{
    if kept == 0 {
        clear(pending, 0);
        return Moved {
            head,
            kept: 0,
            consumed: 0,
            written: 0,
        };
    }
    let r = feed_in_place(head, kept, pending, b"\n", out, terms, counts);
    Moved { consumed: 0, ..r }
}

// What a stream in lent memory has become, by value.
fn fed_of(moved: Moved, terms: [u32; 128], counts: [u16; 256], pending: [u8; LINE_BUFFER]) -> Fed
    ensures { result ≡ fed_at moved terms counts pending }
{
    Fed {
        stream: Stream {
            day: Day::from_parts(moved.head, terms, counts),
            pending,
            kept: moved.kept,
        },
        consumed: moved.consumed,
        written: moved.written,
    }
}

impl Stream {
    // The blank state, and nothing pending.
    pub fn new() -> Self
        ensures { result ≡ new_stream }
    {
        Stream {
            day: Day::blank(),
            pending: [0; LINE_BUFFER],
            kept: 0,
        }
    }

    // A block of input, as far as out has room for the longest answer.
    pub fn feed(self, input: &[u8], out: &mut [u8]) -> Fed
        ensures { Feeds self input.now out.old out.new result }
    {
        let Stream {
            day,
            mut pending,
            kept,
        } = self;
        let mut terms = day.terms;
        let mut counts = day.counts;
        let moved = feed_in_place(
            day.head(),
            kept,
            &mut pending,
            input,
            out,
            &mut terms,
            &mut counts,
        );
        fed_of(moved, terms, counts, pending)
    }

    // The end of input; without room for the longest answer the line stays pending.
    pub fn finish(self, out: &mut [u8]) -> Fed
        ensures { Finishes self out.old out.new result }
    {
        let Stream {
            day,
            mut pending,
            kept,
        } = self;
        let mut terms = day.terms;
        let mut counts = day.counts;
        let moved = finish_in_place(day.head(), kept, &mut pending, out, &mut terms, &mut counts);
        fed_of(moved, terms, counts, pending)
    }
}
