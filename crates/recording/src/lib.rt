// A recorded day: its lines are fed to a stream and, beside it, its accepted views are kept, each as the set of the
// campaigns that it found unpaused.
#![tactic(auto)]

ghost use Rattle.std.specs.Prelude.{◌≡◌, ◌++◌, ◌∷◌, [], ◌≤◌, length};
ghost use Rattle.lines.specs.Reading.{reading};
ghost use Rattle.reply.specs.Reply.{request_of};
ghost use Rattle.reply.specs.Session.{reply_room, fed, upto};
ghost use Rattle.stream.specs.Stream.{finished, session_of, stream_of};
ghost use Rattle.recording.specs.Recording.{shown_in, noted};
ghost use Rattle.recording.specs.Cited.{Took};

use batch::line_end;
use lines::{Record, read_line};
use stream::feed::{Stream, at_most_held};

// The set that a line shows which is a view; any other line shows none.
fn shown_by(line: &[u8]) -> u64
    ensures { result ≡ shown_in (request_of (reading line.now)) }
{
    match read_line(line) {
        Ok(Record::View(set)) => set,
        _ => 0,
    }
}

// What the pending line shows, behind the accepted views. Whether it is one of them is not asked: if the line is
// refused, the entry is written again.
fn note(stream: Stream, views: &mut [u64])
    ensures { views.new
        ≡ noted stream.day (session_of stream).pending views.old }
{
    let Stream { day, pending, kept } = stream;
    let set = shown_by(&pending[..at_most_held(kept)]);
    let at = day.accepted as usize;
    if at < views.len() {
        views[at] = sets::without(set, day.paused);
    }
}

// A line, or what is left of one that has bytes pending, and its byte 10.
fn take_line(stream: Stream, line: &[u8], views: &mut [u64], out: &mut [u8]) -> Stream
    requires { (reply_room ≤ length out.old) × (upto line.now ≡ length line.now) }
    ensures { Took stream views.old (line.now ++ (10 ∷ [])) result views.new }
{
    let whole = stream.feed(line, out).stream;
    note(whole, views);
    whole.feed(b"\n", out).stream
}

// A block of the day's input. The lent bytes `out` are room for its answers, which nobody is told: what stands in them
// afterwards is free, here and at the end.
pub fn take_block(stream: Stream, block: &[u8], views: &mut [u64], out: &mut [u8]) -> Stream
    requires { reply_room ≤ length out.old }
    ensures { Took stream views.old block.now result views.new
        × (result ≡ stream_of (fed (session_of stream) block.now)) }
{
    let mut s = stream;
    let mut from = 0;
    let mut end = line_end(block, 0);
    while end < block.len() {
        s = take_line(s, &block[from..end], views, out);
        from = end + 1;
        end = line_end(block, from);
    }
    s.feed(&block[from..], out).stream
}

// The end of the input: a last line without byte 10 counts if it has bytes.
pub fn take_end(stream: Stream, views: &mut [u64], out: &mut [u8]) -> Stream
    requires { reply_room ≤ length out.old }
    ensures { (result ≡ stream_of (finished (session_of stream)))
        × (views.new ≡ noted stream.day (session_of stream).pending views.old) }
{
    note(stream, views);
    stream.finish(out).stream
}
