// Opening a plan, adding a campaign, starting the day, asking for a tally, closing, pausing and resuming, of a sound
// state; and any call of any state, which is audited first. A loop that has asked once whether its state is sound
// (`prepare`) goes on with the operations of a sound state.
ghost use Rattle.std.specs.Prelude.{◌≡◌, ◌≤◌, ◌<◌};
ghost use Rattle.campaigns.specs.Limits.{max_campaigns};
ghost use Rattle.campaigns.specs.Campaign.{campaign_at};
ghost use Rattle.campaigns.specs.View.{budgets};
ghost use Rattle.campaigns.specs.Cited.{Sized, Weights, max_column};
ghost use Rattle.day.specs.Day.{state_of};
ghost use Rattle.day.specs.Calls.{call, marked};
ghost use Rattle.day.specs.Calls.Call.{open_plan, add_campaign, start_day, ask_tally, close_day, mark_campaign};
ghost use Rattle.day.specs.Day.{audited};
ghost use Rattle.day.specs.InPlace.{outcome_of, asked};
ghost use Rattle.day.specs.Cited.{Kept, Ready};

use crate::view::show_sound;
use crate::{Answer, Call, Step};
use audit::Audit;
use campaigns::entry::entry;
use campaigns::weights::weights;
use campaigns::{BUDGETS, Head, Phase, Plan, Terms};
use questions::{add_question, mark_question, plan_question};
use refusal::Refusal;

// The figures of the state, if it is sound.
pub fn audited<'a>(head: Head, terms: &'a [u32; 128], counts: &'a [u16; 256]) -> Option<Audit>
    ensures { result ≡ audited (state_of head terms.now counts.now) }
{
    if !audit::limits_hold(head) {
        return None;
    }
    audit::audit_parts(head, &weights(head.plan), terms, counts)
}

// A new plan with no campaigns, in Filling.
pub fn open_sound<'a>(
    head: Head,
    plan: Plan,
    terms: &'a mut [u32; 128],
    counts: &'a mut [u16; 256],
) -> Step
    requires { Kept head terms.old counts.old }
    ensures { outcome_of result terms.new counts.new
        ≡ call (state_of head terms.old counts.old) (open_plan plan) }
{
    if !head.phase.closed() {
        return Step::refused(head, Refusal::NOT_CLOSED);
    }
    if let Err(refusal) = plan_question(plan) {
        return Step::refused(head, refusal);
    }
    *terms = [0; 128];
    *counts = [0; 256];
    Step {
        head: Head {
            phase: Phase::Filling,
            plan,
            count: 0,
            accepted: 0,
            paused: 0,
        },
        answer: Answer::Done,
    }
}

// The sum of the budgets.
fn total_budgets<'a>(n: usize, terms: &'a [u32; 128], counts: &'a [u16; 256]) -> u64
    requires { n ≤ max_campaigns }
    ensures { (result ≡ budgets n (campaign_at terms.now counts.now)) × (result ≤ max_column) }
{
    let mut all = 0;
    for i in 0..n {
        all += u64::from(terms[i + BUDGETS]);
    }
    all
}

// One campaign more, with zero counts.
pub fn add_sound<'a>(
    head: Head,
    t: Terms,
    terms: &'a mut [u32; 128],
    counts: &'a [u16; 256],
) -> Step
    requires { Kept head terms.old counts.now }
    ensures { outcome_of result terms.new counts.now
        ≡ call (state_of head terms.old counts.now) (add_campaign t) }
{
    let at = head.count as usize;
    let budgets = total_budgets(at, terms, counts);
    if let Err(refusal) = add_question(head, t, budgets) {
        return Step::refused(head, refusal);
    }
    terms[at] = t.price as u32;
    terms[at + BUDGETS] = t.budget as u32;
    Step {
        head: Head {
            count: head.count + 1,
            ..head
        },
        answer: Answer::Done,
    }
}

// The day starts: no campaign is added from now on.
pub fn start_sound<'a>(head: Head, terms: &'a [u32; 128], counts: &'a [u16; 256]) -> Step
    requires { Kept head terms.now counts.now }
    ensures { outcome_of result terms.now counts.now
        ≡ call (state_of head terms.now counts.now) start_day }
{
    if !head.phase.filling() {
        return Step::refused(head, Refusal::NOT_FILLING);
    }
    Step {
        head: Head {
            phase: Phase::Running,
            ..head
        },
        answer: Answer::Done,
    }
}

// The four counts of a campaign; the state stays.
pub fn tally_sound<'a>(
    head: Head,
    campaign: u64,
    terms: &'a [u32; 128],
    counts: &'a [u16; 256],
) -> Step
    requires { Kept head terms.now counts.now }
    ensures { outcome_of result terms.now counts.now
        ≡ call (state_of head terms.now counts.now) (ask_tally campaign) }
{
    if head.count <= campaign {
        return Step::refused(head, Refusal::NO_CAMPAIGN);
    }
    let c = entry(campaign as usize, terms, counts);
    Step {
        head,
        answer: Answer::Tallied {
            plays: c.plays,
            turns: c.turns,
            age: c.age,
            named: c.named,
        },
    }
}

// The day closes with its takings, total claim and full.
pub fn close_sound<'a>(
    head: Head,
    list: &'a [u64; 33],
    terms: &'a [u32; 128],
    counts: &'a [u16; 256],
) -> Step
    requires weights { Weights head.plan list.now }
    requires kept { Kept head terms.now counts.now }
    ensures { outcome_of result terms.now counts.now
        ≡ call (state_of head terms.now counts.now) close_day }
{
    if !head.phase.running() {
        return Step::refused(head, Refusal::NOT_RUNNING);
    }
    let audit = audit::audit_parts(head, list, terms, counts).unwrap();
    Step {
        head: Head {
            phase: Phase::Closed(audit.takings),
            ..head
        },
        answer: Answer::Closing {
            takings: audit.takings,
            claim: audit.claim,
            full: audit.full,
        },
    }
}

// The marks with that of a campaign set or cleared.
#[tactic(auto, unfolding(crate::specs::Calls::marked))]
fn marked(set: u64, campaign: u64, paused: bool) -> u64
    requires { campaign < max_campaigns }
    ensures { result ≡ marked paused campaign set }
{
    if paused {
        return sets::including(set, campaign);
    }
    sets::without(set, sets::including(0, campaign))
}

// A campaign is paused, or resumed: its mark alone changes.
pub fn mark_sound<'a>(
    head: Head,
    campaign: u64,
    paused: bool,
    terms: &'a [u32; 128],
    counts: &'a [u16; 256],
) -> Step
    requires { Kept head terms.now counts.now }
    ensures { outcome_of result terms.now counts.now
        ≡ call (state_of head terms.now counts.now) (mark_campaign paused campaign) }
{
    if let Err(refusal) = mark_question(head, campaign) {
        return Step::refused(head, refusal);
    }
    Step {
        head: Head {
            paused: marked(head.paused, campaign, paused),
            ..head
        },
        answer: Answer::Done,
    }
}

// A call of a sound state.
pub fn execute_sound<'a>(
    head: Head,
    ask: Call,
    weights: &'a [u64; 33],
    terms: &'a mut [u32; 128],
    counts: &'a mut [u16; 256],
) -> Step
    requires weights { Weights head.plan weights.now }
    requires kept { Kept head terms.old counts.old }
    ensures { outcome_of result terms.new counts.new
        ≡ call (state_of head terms.old counts.old) (asked ask) }
{
    match ask {
        Call::Open(plan) => open_sound(head, plan, terms, counts),
        Call::Add(t) => add_sound(head, t, terms, counts),
        Call::Start => start_sound(head, terms, counts),
        Call::Show(view) => show_sound(head, view, weights, terms, counts),
        Call::Tally(campaign) => tally_sound(head, campaign, terms, counts),
        Call::Close => close_sound(head, weights, terms, counts),
        Call::Pause(campaign) => mark_sound(head, campaign, true, terms, counts),
        Call::Resume(campaign) => mark_sound(head, campaign, false, terms, counts),
    }
}

// Whether the state is sound; where it is, the list gets the weights of its plan. What else of the list is changed is
// free: the entries past the depth, and all of them where the state is not sound.
pub fn prepare<'a>(
    head: Head,
    list: &'a mut [u64; 33],
    terms: &'a [u32; 128],
    counts: &'a [u16; 256],
) -> bool
    requires { Sized terms.now counts.now }
    ensures { Ready result head list.new terms.now counts.now }
{
    if !audit::limits_hold(head) {
        return false;
    }
    *list = weights(head.plan);
    audit::audit_parts(head, list, terms, counts).is_some()
}

// A call of any state.
pub fn execute<'a>(
    head: Head,
    ask: Call,
    terms: &'a mut [u32; 128],
    counts: &'a mut [u16; 256],
) -> Step
    ensures { outcome_of result terms.new counts.new
        ≡ call (state_of head terms.old counts.old) (asked ask) }
{
    let mut list = [0; 33];
    if !prepare(head, &mut list, terms, counts) {
        return Step::refused(head, Refusal::UNSOUND);
    }
    execute_sound(head, ask, &list, terms, counts)
}
