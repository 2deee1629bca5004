// A recorded day from standard input, and to standard output one line: what it took, the most that it could have
// earned, and their ratio. A read or a write that fails is told on standard error; nothing is printed of a day that
// could not be read to its end.
#![tactic(auto)]

mod told;

ghost use Rattle.std.specs.Prelude.{◌≡◌, ◌<◌, length};
ghost use Rattle.recording.specs.Cited.{Took};
ghost use Rattle.recording.proofs.Bytes.{took_none, took_more};
ghost use Rattle.pumpgreatest.specs.Telling.{Told};
ghost use Rattle.pumpgreatest.specs.Prints.{Prints};
ghost use Rattle.pumpgreatest.specs.Cited.{earned_at_end};

use earnings::{ROOM, earned, put_earnings};
use recording::{take_block, take_end};
use stream::feed::Stream;
use teller::{Listener, Teller};
use told::Line;

// The bytes of a read at the most, and the room for the answers to a part of them.
const BLOCK: usize = 65536;

// `max_handed_in` and one more: the search takes no more views, so that it refuses a longer day.
const ENTRIES: usize = 257;

// The stream that the day is fed to, entries for its views, and room for its answers, which nobody is told, and for its
// line.
#[derive(Drop)]
struct Reader {
    stream: Stream,
    views: [u64; ENTRIES],
    out: [u8; BLOCK],
}

impl Listener for Reader {
    ghost took = { λ k l m. Took k.stream k.views l m.stream m.views };

    fn take(&mut self, block: &[u8]) {
        self.stream = take_block(self.stream, block, &mut self.views, &mut self.out);
    }

    ghost took_none = { λ k. took_none k.stream k.views };

    ghost took_more = { λ k m n l b t s. took_more t s };
}

impl Reader {
    // A last line without byte 10, and the day's line.
    fn finish(&mut self, rt: HostRuntime, teller: &mut Teller<Line>)
        ensures { Told teller.old (earned_at_end self.old.stream self.old.views) teller.new }
    {
        let last = take_end(self.stream, &mut self.views, &mut self.out);
        let day = last.day;
        let n = (day.accepted as usize).min(ENTRIES);
        let earnings = earned(day, &self.views[..n]);
        let at = put_earnings(&mut self.out, earnings);
        teller.tell(rt, Line { earnings }, &self.out[at..ROOM]);
    }
}

// The whole input, and the line of its day, unless a read failed.
fn run(rt: HostRuntime, block: &mut [u8]) -> Teller<Line>
    requires { 0 < length block.old }
    ensures { Prints result }
{
    let mut reader = Reader {
        stream: Stream::new(),
        views: [0; ENTRIES],
        out: [0; BLOCK],
    };
    let mut teller = Teller::hear(rt, &mut reader, block);
    if teller.ended() && !teller.failed() {
        reader.finish(rt, &mut teller);
    }
    teller
}

// It promises nothing: what a run promises, `run` does, and behind it only standard error is written.
fn main(rt: HostRuntime) {
    let mut block = [0u8; BLOCK];
    run(rt, &mut block).complain(rt, b"pumpgreatest");
}
