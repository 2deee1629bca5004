// A view of a sound state: its questions, the choice, and what it does to the named campaigns that are not paused.
ghost use Rattle.std.specs.Prelude.{◌≡◌};
ghost use Rattle.campaigns.specs.Cited.{Weights};
ghost use Rattle.day.specs.Day.{state_of};
ghost use Rattle.day.specs.Calls.{call};
ghost use Rattle.day.specs.Calls.Call.{show_view};
ghost use Rattle.day.specs.InPlace.{outcome_of};
ghost use Rattle.day.specs.Cited.{Kept};
ghost use Rattle.day.specs.Cited.{answer_of};

use crate::{Answer, Step};
use campaigns::{Head, View};
use choice::{Candidate, play};
use questions::view_question;

// Who plays, and what is paid.
fn view_answer(chosen: Option<Candidate>) -> Answer
    ensures { result ≡ answer_of chosen }
{
    match chosen {
        Some(best) => Answer::Played {
            campaign: best.campaign,
            paid: best.paid,
        },
        None => Answer::Nobody,
    }
}

// The view of a sound state.
pub fn show_sound<'a>(
    head: Head,
    view: View,
    weights: &'a [u64; 33],
    terms: &'a [u32; 128],
    counts: &'a mut [u16; 256],
) -> Step
    requires weights { Weights head.plan weights.now }
    requires kept { Kept head terms.now counts.old }
    ensures { outcome_of result terms.now counts.new
        ≡ call (state_of head terms.now counts.old) (show_view view) }
{
    if let Err(refusal) = view_question(head, view) {
        return Step::refused(head, refusal);
    }
    let found = View {
        set: sets::without(view.set, head.paused),
    };
    let chosen = play(found, head.plan, weights, terms, counts);
    Step {
        head: Head {
            accepted: head.accepted + 1,
            ..head
        },
        answer: view_answer(chosen),
    }
}
