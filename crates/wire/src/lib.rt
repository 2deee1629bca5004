// Standard input, output and error: no other code of the programs reads or writes. A wire counts what passes over the
// first two; its fields are private, so that no other code sets a count.
#![tactic(auto)]

ghost use Rattle.std.specs.Prelude.{◌≡◌, ◌<◌, length};
ghost use Rattle.wire.specs.Wires.{new_wire, Reads, Writes};

use std::io::{ErrorKind, Read, Stderr, Stdin, Stdout, Write};

// How many reads were made, how many bytes they gave and how many were told, each modulo 2^64; whether the last read
// gave nothing and whether it failed, and whether every write went through. Whether nobody reads the output any more is
// known for `complain` alone.
#[derive(Clone, Copy)]
pub struct Wire {
    reads: u64,
    got: u64,
    told: u64,
    ended: bool,
    failed: bool,
    sent: bool,
    unread: bool,
}

impl Wire {
    pub fn new() -> Self
        ensures { result ≡ new_wire }
    {
        Wire {
            reads: 0,
            got: 0,
            told: 0,
            ended: false,
            failed: false,
            sent: true,
            unread: false,
        }
    }

    // One read, into a block of one byte at least: into an empty one nothing could be read, and that would be taken for
    // the end of input. It says how many bytes it put at the front of the block; one that fails, whatever the reason,
    // gives nothing, as at the end. Free are these bytes, since no contract can say what the system put there, and the
    // block behind them.
    pub fn read(&mut self, mut input: Stdin, block: &mut [u8]) -> usize
        requires { 0 < length block.old }
        ensures { Reads self.old block.new result self.new }
    {
        let answer = input.read(block);
        let failed = answer.is_err();
        let n = answer.unwrap_or(0);
        self.reads = self.reads.wrapping_add(1);
        self.got = self.got.wrapping_add(n as u64);
        self.ended = n == 0;
        self.failed = failed;
        n
    }

    pub fn write(&mut self, mut output: Stdout, bytes: &[u8])
        ensures { Writes self.old bytes.now self.new }
    {
        let answer = output.write_all(bytes);
        self.told = self.told.wrapping_add(bytes.len() as u64);
        self.sent &= answer.is_ok();
        self.unread |= answer.is_err_and(|error| matches!(error.kind(), ErrorKind::BrokenPipe));
    }

    pub fn ended(self) -> bool
        ensures { result ≡ self.ended }
    {
        self.ended
    }

    pub fn failed(self) -> bool
        ensures { result ≡ self.failed }
    {
        self.failed
    }

    pub fn sent(self) -> bool
        ensures { result ≡ self.sent }
    {
        self.sent
    }

    // One line on standard error for a read that failed, and one for a write, each opened by the program's name; none
    // where whoever read the output went away, which is no fault. It promises nothing: no contract can say what is
    // written, and nothing counts what goes to standard error. The wire is handed over and not given back, so that no
    // count can change.
    pub fn complain(self, mut error: Stderr, name: &[u8]) {
        if self.failed & !self.unread {
            let _name = error.write_all(name);
            let _rest = error.write_all(b": standard input could not be read\n");
        }
        if !self.sent & !self.unread {
            let _name = error.write_all(name);
            let _rest = error.write_all(b": standard output could not be written\n");
        }
    }
}
