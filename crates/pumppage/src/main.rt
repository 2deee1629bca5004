// A recorded day from standard input, and the station's page of the state at its end to standard output. A read or a
// write that fails is told on standard error; no page is printed of a day that could not be read to its end.
#![tactic(auto)]

mod told;

ghost use Rattle.std.specs.Prelude.{◌≡◌, true, ◌≤◌, ◌<◌, length};
ghost use Rattle.day.specs.Day.{sound};
ghost use Rattle.stream.specs.Stream.{finished, session_of};
ghost use Rattle.stream.proofs.Parts.{stream_none, stream_more};
ghost use Rattle.pumppage.specs.Telling.{Told};
ghost use Rattle.pumppage.specs.Prints.{Prints};
ghost use Rattle.pumppage.specs.Cited.{Took};

use page::print_day;
use stream::feed::Stream;
use teller::{Listener, Teller};
use told::Page;

// The bytes of a read at the most, and the room for a page.
const BLOCK: usize = 65536;

// The stream that the day is fed to, and room for its answers, which nobody is told, and for the page.
#[derive(Drop)]
struct Reader {
    stream: Stream,
    out: [u8; BLOCK],
}

impl Listener for Reader {
    ghost took = { λ k l m. Took k.stream l m.stream };

    // The whole block, part by part, each as far as there is room for its answers.
    fn take(&mut self, block: &[u8]) {
        let mut from = 0;
        while from < block.len() {
            let fed = self.stream.feed(&block[from..], &mut self.out);
            self.stream = fed.stream;
            from += fed.consumed;
        }
    }

    ghost took_none = { λ k. stream_none k.stream };

    ghost took_more = { λ k m n l b t s. stream_more (session_of k.stream) l b _ t _ s };
}

impl Reader {
    // A last line without byte 10, and the page.
    fn finish(&mut self, rt: HostRuntime, teller: &mut Teller<Page>)
        requires { sound self.old.stream.day ≡ true }
        ensures { Told teller.old (finished (session_of self.old.stream)).day teller.new }
    {
        let next = self.stream.finish(&mut self.out).stream;
        let day = next.day;
        if let Ok(n) = print_day(day, &mut self.out) {
            teller.tell(rt, Page { day }, &self.out[..n]);
        }
    }
}

// The whole input, and its page, unless a read failed.
fn run(rt: HostRuntime, block: &mut [u8]) -> Teller<Page>
    requires { 0 < length block.old }
    ensures { Prints result }
{
    let mut reader = Reader {
        stream: Stream::new(),
        out: [0; BLOCK],
    };
    let mut teller = Teller::hear(rt, &mut reader, block);
    if teller.ended() && !teller.failed() {
        reader.finish(rt, &mut teller);
    }
    teller
}

// It promises nothing: what a run promises, `run` does, and behind it only standard error is written.
fn main(rt: HostRuntime) {
    let mut block = [0u8; BLOCK];
    run(rt, &mut block).complain(rt, b"pumppage");
}
