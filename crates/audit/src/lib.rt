// Question 1 in two parts: `limits_hold`, of any head, and `audit_parts`, of any arrays beside a head that passed it.
// `day::ops::audited` joins them for any state. No sum or product on the way can overflow.
#![tactic(auto)]

pub mod columns;
pub mod sums;

ghost use Rattle.std.specs.Prelude.{◌≡◌, true};
ghost use Rattle.campaigns.specs.Campaign.{campaign_at};
ghost use Rattle.campaigns.specs.Cited.{Weights};
ghost use Rattle.campaigns.specs.Phase.{phase_holds};
ghost use Rattle.audit.specs.Sound.{marks_hold, audit_of};
ghost use Rattle.audit.specs.Cited.{limits_hold, Bounded, claim_checked};

use crate::columns::columns_hold;
use crate::sums::{Sums, sum_all};
use campaigns::weights::weigh;
use campaigns::{Head, Phase, Plan, Terms};

// A sound state's figures: the sum of its budgets, its takings, total claim and full.
#[derive(Clone, Copy)]
pub struct Audit {
    pub budgets: u64,
    pub takings: u64,
    pub claim: u64,
    pub full: u64,
}

// No campaign past the last is paused and, in Filling, none at all.
fn marks_hold(head: Head) -> bool
    ensures { result ≡ marks_hold head }
{
    sets::within(head.paused, head.count) && (head.paused == 0 || !head.phase.filling())
}

// Questions 3 to 5 of a state's plan, the limits of its campaigns and its views, and the paused marks.
pub fn limits_hold(head: Head) -> bool
    ensures { result ≡ limits_hold head }
{
    let plan = head.plan;
    plan.depth_fits()
        & plan.width_fits()
        & (plan.depth <= powers::deepest(plan.width))
        & (head.count <= Plan::MAX_CAMPAIGNS)
        & (head.accepted <= Plan::MAX_VIEWS)
        & marks_hold(head)
}

// In Filling no view is accepted; a Closed phase holds the takings.
fn phase_holds(phase: Phase, accepted: u64, takings: u64) -> bool
    ensures { result ≡ phase_holds phase accepted takings }
{
    match phase {
        Phase::Filling => accepted == 0,
        Phase::Running => true,
        Phase::Closed(held) => held == takings,
    }
}

// The last question of soundness: the total claim, turned × (d^k − (d−1)^k) + waited, is at most full. A claim that
// does not fit is above full, which does.
fn check_claim(sums: Sums, plan: Plan, weights: &[u64; 33]) -> Option<Audit>
    requires weights { Weights plan weights.now }
    requires bounded { Bounded sums }
    ensures { result ≡ claim_checked plan sums }
{
    let high = weigh(plan.depth, plan, weights);
    let share = high - weigh(0, plan, weights);
    let full = high * sums.takings;
    let claim = sums.turned.checked_mul(share)?.checked_add(sums.waited)?;
    if full < claim {
        return None;
    }
    Some(Audit {
        budgets: sums.budgets,
        takings: sums.takings,
        claim,
        full,
    })
}

// The audit of a state within its limits, whose arrays are lent, by the weights of its plan; none of an unsound one.
pub fn audit_parts<'a>(
    head: Head,
    weights: &'a [u64; 33],
    terms: &'a [u32; 128],
    counts: &'a [u16; 256],
) -> Option<Audit>
    requires weights { Weights head.plan weights.now }
    requires head_value { limits_hold head ≡ true }
    ensures { result ≡ audit_of head (campaign_at terms.now counts.now) }
{
    let n = head.count as usize;
    if !columns_hold(head, n, terms, counts) {
        return None;
    }
    let sums = sum_all(n, head.plan, weights, terms, counts)?;
    if Terms::MAX_BUDGET < sums.budgets || !phase_holds(head.phase, head.accepted, sums.takings) {
        return None;
    }
    check_claim(sums, head.plan, weights)
}
