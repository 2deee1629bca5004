// A list of encoded calls, run: three words a call, its kind and what it is handed. The contract of `replay` is demand
// 3.
#![tactic(auto)]

ghost use Rattle.std.specs.Prelude.{◌≡◌, [], ◌∷◌, ◌*◌, ◌≤◌, option_to_list, option_map};
ghost use Rattle.campaigns.specs.Limits.{max_price};
ghost use Rattle.day.specs.Calls.Call.{open_plan, show_view};
ghost use Rattle.day.specs.InPlace.{asked};
ghost use Rattle.floor.specs.History.{paid_in};
ghost use Rattle.replay.specs.Replay.{call_in, Replays};
ghost use Rattle.replay.specs.Cited.{ReplaysTo};

use campaigns::{Plan, Terms, View};
use day::{Answer, Call, Day};

// The state at a list's end, and the day's takings, added up from the answers.
#[derive(Clone, Copy)]
pub struct Replayed {
    pub day: Day,
    pub paid: u64,
}

// The price paid in an answer, where nobody counts 0.
fn paid_in(answer: Answer) -> u64
    ensures { result ≡ paid_in answer }
{
    match answer {
        Answer::Played { paid, .. } => paid,
        _ => 0,
    }
}

// The call that three words encode, or none where the kind is none of the eight.
#[tactic(auto, unfolding(crate::specs::Replay::call_in))]
fn call_of(kind: u64, a: u64, b: u64) -> Option<Call>
    ensures { option_to_list (option_map asked result) ≡ call_in kind a b }
{
    match kind {
        0 => Some(Call::Open(Plan { depth: a, width: b })),
        1 => Some(Call::Add(Terms {
            price: a,
            budget: b,
        })),
        2 => Some(Call::Start),
        3 => Some(Call::Show(View { set: a })),
        4 => Some(Call::Tally(a)),
        5 => Some(Call::Close),
        6 => Some(Call::Pause(a)),
        7 => Some(Call::Resume(a)),
        _ => None,
    }
}

// An accepted opening begins a day, so that the takings begin again.
fn open(before: Replayed, plan: Plan) -> Replayed
    ensures { ReplaysTo before.day before.paid (open_plan plan ∷ []) result }
{
    let outcome = before.day.open(plan);
    let accepted = outcome.answer.number() == 0;
    Replayed {
        day: outcome.day,
        paid: if accepted { 0 } else { before.paid },
    }
}

// A view adds what its answer says was paid. Each accepted view pays at most 1,000,000, and there are at most 4,096.
fn view(before: Replayed, view: View) -> Replayed
    requires { before.paid ≤ max_price * before.day.accepted }
    ensures { ReplaysTo before.day before.paid (show_view view ∷ []) result }
{
    let outcome = before.day.view(view);
    let more = paid_in(outcome.answer);
    Replayed {
        day: outcome.day,
        paid: before.paid + more,
    }
}

// One call. No other than these two changes the takings.
fn step(before: Replayed, call: Call) -> Replayed
    requires { before.paid ≤ max_price * before.day.accepted }
    ensures { ReplaysTo before.day before.paid (asked call ∷ []) result }
{
    match call {
        Call::Open(plan) => open(before, plan),
        Call::Show(shown) => view(before, shown),
        _ => Replayed {
            day: before.day.execute(call).day,
            paid: before.paid,
        },
    }
}

// Runs the calls in order, from any state; one or two words left at the end are no call.
pub fn replay(day: Day, calls: &[u64]) -> Replayed
    ensures { Replays day calls.now result }
{
    let mut state = Replayed { day, paid: 0 };
    for words in calls.chunks_exact(3) {
        if let Some(call) = call_of(words[0], words[1], words[2]) {
            state = step(state, call);
        }
    }
    state
}
