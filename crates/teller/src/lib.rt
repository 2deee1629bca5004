// A program that reads its whole input and tells one text at the end of it, over the program's wire.
#![tactic(auto)]

ghost use Rattle.std.specs.Prelude.{◌≡◌, ◌++◌, List, [], ℕ, ◌<◌, length};
ghost use Rattle.wire.specs.Wires.{Reads};
ghost use Rattle.teller.specs.Telling.{new_teller, Waits, Told, Heard};
ghost use Rattle.teller.specs.Cited.{Taken};

use wire::Wire;

// What has a text that can be told.
pub trait Text {
    ghost text: { Self → List ℕ };
}

// What an input is handed to, block after block: what some bytes and then some more make of it, all of them make of it.
pub trait Listener {
    ghost took: { Self → List ℕ → Self → Type 0 };

    fn take(&mut self, block: &[u8])
        ensures { took self.old block.now self.new };

    ghost took_none: { (k : Self) → took k [] k };

    ghost took_more: { (k m n : Self) (l b : List ℕ) → took k l m → took m b n → took k (l ++ b) n };
}

// The program's wire, and that of which the text was told, if any was. The fields are private, so that no other code
// puts one together, writes over its wire or sets what was told.
#[derive(Clone, Copy)]
pub struct Teller<T> {
    told: Option<T>,
    wire: Wire,
}

impl<T: Copy + Text> Teller<T> {
    pub fn new() -> Self
        ensures { result ≡ new_teller }
    {
        Teller {
            told: None,
            wire: Wire::new(),
        }
    }

    pub fn read(&mut self, rt: HostRuntime, block: &mut [u8]) -> usize
        requires { 0 < length block.old }
        ensures { Waits self.old block.new result self.new }
    {
        self.wire.read(rt.stdin(), block)
    }

    // Writes the text of x.
    pub fn tell(&mut self, rt: HostRuntime, x: T, bytes: &[u8])
        requires { bytes.now ≡ T.text x }
        ensures { Told T.text self.old x self.new }
    {
        self.wire.write(rt.stdout(), bytes);
        self.told = Some(x);
    }

    // One read, and what it gave, which is borrowed until it is taken, so that nothing writes over it.
    fn hear_block<L: Listener>(
        &mut self,
        rt: HostRuntime,
        listener: &mut L,
        block: &mut [u8],
    ) -> usize
        requires { 0 < length block.old }
        ensures { Taken L.took self.old listener.old block.new result listener.new self.new }
    {
        let n = self.read(rt, block);
        let given = &block[..n];
        if n > 0 {
            listener.take(given);
        }
        n
    }

    // The whole input, block after block, until a read gives nothing or fails. A proved loop has to end: this one has
    // more turns than any run uses up.
    pub fn hear<L: Listener>(rt: HostRuntime, listener: &mut L, block: &mut [u8]) -> Self
        requires { 0 < length block.old }
        ensures { Heard L.took listener.old listener.new result }
    {
        let mut teller = Teller::new();
        for _ in 0..u64::MAX {
            if teller.hear_block(rt, listener, block) == 0 {
                return teller;
            }
        }
        teller
    }

    // Whether the last read gave nothing; one that failed gave nothing either.
    pub fn ended(self) -> bool
        ensures { result ≡ self.wire.ended }
    {
        self.wire.ended()
    }

    pub fn failed(self) -> bool
        ensures { result ≡ self.wire.failed }
    {
        self.wire.failed()
    }

    // Standard error is free, as of `Wire::complain`.
    pub fn complain(self, rt: HostRuntime, name: &[u8]) {
        self.wire.complain(rt.stderr(), name);
    }
}
