// Standard input to standard output: each line is answered, and all answers are written before more input is waited
// for. A read or a write that fails is told on standard error.
#![tactic(auto)]

mod teller;

ghost use Rattle.std.specs.Prelude.{◌≤◌, ◌<◌, length};
ghost use Rattle.reply.specs.Session.{reply_room};
ghost use Rattle.pumpday.specs.Pump.{Runs};

use teller::Teller;

// The bytes of a read at the most, and the room for the answers to a part of them.
const BLOCK: usize = 65536;

// Block after block, until a read gives nothing or a write fails. A proved loop has to end: this one has more turns
// than any run uses up.
fn run(rt: HostRuntime, block: &mut [u8], out: &mut [u8]) -> Teller
    requires { (0 < length block.old) × (reply_room ≤ length out.old) }
    ensures { Runs result }
{
    let mut teller = Teller::new();
    for _ in 0..u64::MAX {
        teller.turn(rt, block, out);
        if !teller.sent() {
            return teller;
        }
        if teller.ended() {
            teller.finish(rt, out);
            return teller;
        }
    }
    teller
}

// It promises nothing: what a run promises, `run` does, and behind it only standard error is written.
fn main(rt: HostRuntime) {
    let mut block = [0u8; BLOCK];
    let mut out = [0u8; BLOCK];
    run(rt, &mut block, &mut out).complain(rt);
}
