// Lines that lie whole in the input, each answered in place.
#![tactic(auto)]

ghost use Rattle.std.specs.Prelude.{◌≡◌, cond, false, ◌+◌, ◌≤◌, length, take, drop};
ghost use Rattle.lines.specs.Limits.{line_buffer};
ghost use Rattle.reply.specs.Session.{upto};
ghost use Rattle.day.specs.Cited.{Ready};
ghost use Rattle.batch.specs.Cited.{line_of, position, Completed, Batch};

use lines::slots::LINE_BUFFER;
use reply::ROOM;
use reply::line::{Turn, answer_at};

// Between two lines: the turn, how many bytes of a line are pending, and the place in the input.
#[derive(Clone, Copy)]
pub struct Cursor {
    pub turn: Turn,
    pub kept: usize,
    pub from: usize,
}

// The place of the first byte 10 of s from the place at on, or the end of s.
pub fn line_end(s: &[u8], at: usize) -> usize
    requires { at ≤ length s.now }
    ensures { (result ≡ at + upto (drop at s.now)) × (result ≤ length s.now) }
{
    let rest = &s[at..];
    at + rest.iter().position(|b| *b == b'\n').unwrap_or(rest.len())
}

// Does a byte 10 stand in the block? All bytes are looked at, so that the compiler compares many at once.
fn has_line_end(block: &[u8]) -> bool
    ensures { result ≡ false → upto block.now ≡ length block.now }
{
    let mut any = false;
    for b in block {
        any |= *b == b'\n';
    }
    any
}

// Blocks of 32 bytes without byte 10 are passed over.
fn past_blocks(s: &[u8], at: usize) -> usize
    requires { at ≤ length s.now }
    ensures { (at + upto (drop at s.now) ≡ result + upto (drop result s.now))
        × (result ≤ length s.now) }
{
    let mut i = at;
    while s.len() - i >= 32 && !has_line_end(&s[i..i + 32]) {
        i += 32;
    }
    i
}

// The same place as `line_end`, found faster where the line is long: a block of input begins with this, and may have no
// byte 10 at all.
fn first_line_end(s: &[u8], at: usize) -> usize
    requires { at ≤ length s.now }
    ensures { (result ≡ at + upto (drop at s.now)) × (result ≤ length s.now) }
{
    let from = past_blocks(s, at);
    line_end(s, from)
}

// The bytes of s behind those that are kept, as far as a line is held. What stands in `pending` behind them is free
// afterwards.
pub fn keep(pending: &mut [u8], kept: usize, s: &[u8]) -> usize
    requires { (kept ≤ line_buffer) × (length pending.old ≡ line_buffer) }
    ensures line { (result ≤ line_buffer) × (take result pending.new
        ≡ line_of pending.old kept s.now) }
    ensures wide { length pending.new ≡ line_buffer }
{
    let n = s.len().min(LINE_BUFFER - kept);
    // not by copy_from_slice, which calls a further function of the C library
    for i in 0..n {
        pending[kept + i] = s[i];
    }
    kept + n
}

// The same where a byte is kept; a line that lies whole in the input is not copied.
fn complete(pending: &mut [u8], kept: usize, s: &[u8]) -> usize
    requires { (kept ≤ line_buffer) × (length pending.old ≡ line_buffer) }
    ensures { Completed pending.old kept s.now pending.new result }
{
    if kept == 0 { 0 } else { keep(pending, kept, s) }
}

// The first of two slices, or the second.
fn choose<'a>(first: bool, a: &'a [u8], b: &'a [u8]) -> &'a [u8]
    ensures { result.now ≡ cond first a.now b.now }
{
    if first { a } else { b }
}

// Line after line, while a line ends in the input and there is room for its answer. The first may have bytes pending.
// Free afterwards are the bytes of `pending` behind those kept, and the list of weights.
pub fn run_batch<'a>(
    t: Cursor,
    pending: &mut [u8],
    input: &[u8],
    out: &mut [u8],
    list: &'a mut [u64; 33],
    terms: &'a mut [u32; 128],
    counts: &'a mut [u16; 256],
) -> Cursor
    requires sizes { (t.kept ≤ line_buffer) × (length pending.old ≡ line_buffer) × (t.from ≤ length input.now)
        × (t.turn.at ≤ length out.old) }
    requires ready { Ready t.turn.sound t.turn.head list.old terms.old counts.old }
    ensures { Batch input.now (position t terms.old counts.old)
        pending.old out.old (position result terms.new counts.new)
        pending.new out.new }
{
    let Cursor {
        mut turn,
        mut kept,
        mut from,
    } = t;
    let mut end = first_line_end(input, from);
    while end < input.len() && ROOM <= out.len() - turn.at {
        let n = complete(pending, kept, &input[from..end]);
        let line = choose(kept == 0, &input[from..end], &pending[..n]);
        turn = answer_at(turn, line, out, list, terms, counts);
        kept = 0;
        from = end + 1;
        end = line_end(input, from);
    }
    Cursor { turn, kept, from }
}
