// What is told: the answers to lines. A teller has the program's wire and the stream that its input is fed to; its
// fields are private, so that no other code puts one together, writes over its wire or changes the stream.
ghost use Rattle.std.specs.Prelude.{◌≡◌, ◌≤◌, ◌<◌, length};
ghost use Rattle.reply.specs.Session.{reply_room};
ghost use Rattle.stream.specs.Stream.{finished, session_of, silent};
ghost use Rattle.pumpday.specs.Telling.{new_teller, session_after, Told};
ghost use Rattle.pumpday.specs.Cited.{Part, Whole, Taken};

use stream::feed::Stream;
use wire::Wire;

#[derive(Clone, Copy)]
pub struct Teller {
    stream: Stream,
    wire: Wire,
}

impl Teller {
    pub fn new() -> Self
        ensures { result ≡ new_teller }
    {
        Teller {
            stream: Stream::new(),
            wire: Wire::new(),
        }
    }

    // Writes what is due from the stream for the bytes that it took, or at the end of input; next is the stream after
    // them.
    fn tell(&mut self, rt: HostRuntime, taken: &[u8], end: bool, next: Stream, bytes: &[u8])
        requires { (bytes.now ≡ (session_after self.old.stream taken.now end).output)
            × (session_of next ≡ silent (session_after self.old.stream taken.now end)) }
        ensures { Told self.old (session_after self.old.stream taken.now end) self.new }
    {
        self.wire.write(rt.stdout(), bytes);
        self.stream = next;
    }

    // The block from a place on, as far as there is room for its answers, which are told, and where that ends.
    fn answer_part(&mut self, rt: HostRuntime, block: &[u8], from: usize, out: &mut [u8]) -> usize
        requires { from ≤ length block.now }
        ensures { Part self.old block.now out.old from self.new result }
    {
        let fed = self.stream.feed(&block[from..], out);
        let to = from + fed.consumed;
        self.tell(rt, &block[from..to], false, fed.stream, &out[..fed.written]);
        to
    }

    // The whole block, part by part, unless a write fails.
    fn answer_block(&mut self, rt: HostRuntime, block: &[u8], out: &mut [u8]) -> usize
        requires { reply_room ≤ length out.old }
        ensures { Whole self.old block.now self.new result }
    {
        let mut from = self.answer_part(rt, block, 0, out);
        while from < block.len() && self.sent() {
            from = self.answer_part(rt, block, from, out);
        }
        from
    }

    // One read, and the answers to what it gave, which is borrowed until they are told, so that nothing writes over it.
    // What is left in `out` is free.
    pub fn turn(&mut self, rt: HostRuntime, block: &mut [u8], out: &mut [u8])
        requires { (0 < length block.old) × (reply_room ≤ length out.old) }
        ensures { Taken self.old block.new self.new }
    {
        let n = self.wire.read(rt.stdin(), block);
        self.answer_block(rt, &block[..n], out);
    }

    // The end of input: the answer to a last line without byte 10. What is left in `out` is free.
    pub fn finish(&mut self, rt: HostRuntime, out: &mut [u8])
        requires { reply_room ≤ length out.old }
        ensures { Told self.old (finished (session_of self.old.stream)) self.new }
    {
        let fed = self.stream.finish(out);
        self.tell(rt, b"", true, fed.stream, &out[..fed.written]);
    }

    pub fn ended(self) -> bool
        ensures { result ≡ self.wire.ended }
    {
        self.wire.ended()
    }

    pub fn sent(self) -> bool
        ensures { result ≡ self.wire.sent }
    {
        self.wire.sent()
    }

    // Standard error is free, as of `Wire::complain`.
    pub fn complain(self, rt: HostRuntime) {
        self.wire.complain(rt.stderr(), b"pumpday");
    }
}
