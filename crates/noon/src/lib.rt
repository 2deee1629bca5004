// The figures at noon: what a station may compare at any moment of its day. Of a state that calls made the floor is at
// most the claim, and the claim at most full; of a state that was made up nothing is promised but the figures
// themselves.
#![tactic(auto)]

ghost use Rattle.std.specs.Prelude.{◌≡◌, true, ◌≤◌};
ghost use Rattle.powers.specs.Limits.{max_power};
ghost use Rattle.powers.specs.Power.{share};
ghost use Rattle.campaigns.specs.Limits.{max_budget};
ghost use Rattle.campaigns.specs.Campaign.{sound_plan};
ghost use Rattle.day.specs.Day.{state_of};
ghost use Rattle.day.specs.Cited.{Kept};
ghost use Rattle.noon.specs.Noon.{due, total_due, at_noon};

use campaigns::entry::entry;
use campaigns::weights::{weigh, weights};
use campaigns::{Campaign, Head, Plan};
use day::ops::audited;
use refusal::Refusal;

// Full, d^k × takings; the total claim; and the floor's figure, (d^k − (d−1)^k) × the prices of what is due.
#[derive(Clone, Copy)]
pub struct Figures {
    pub full: u64,
    pub claim: u64,
    pub floor: u64,
}

// The plays due to a campaign: the smaller of whole plays and named / depth, rounded down.
fn due(c: Campaign, depth: u64) -> u64
    requires le_price { 1 ≤ c.price }
    requires le_depth { 1 ≤ depth }
    ensures { result ≡ due depth c }
{
    (c.budget / c.price).min(c.named / depth)
}

// The prices of what is due to the campaigns of a sound state: no more than their budgets.
fn total_due<'a>(head: Head, terms: &'a [u32; 128], counts: &'a [u16; 256]) -> u64
    requires { Kept head terms.now counts.now }
    ensures { (result ≡ total_due (state_of head terms.now counts.now)) × (result ≤ max_budget) }
{
    let mut all: u64 = 0;
    for i in 0..head.count as usize {
        let c = entry(i, terms, counts);
        all += c.price * due(c, head.plan.depth);
    }
    all
}

// d^k − (d−1)^k of a plan that passes questions 3 to 5.
fn share(plan: Plan) -> u64
    requires { sound_plan plan ≡ true }
    ensures { (result ≡ share plan.depth plan.width) × (result ≤ max_power) }
{
    let list = weights(plan);
    let high = weigh(plan.depth, plan, &list);
    high - weigh(0, plan, &list)
}

// The figures of any sound state whose arrays are lent; the state stays.
pub fn at_noon<'a>(
    head: Head,
    terms: &'a [u32; 128],
    counts: &'a [u16; 256],
) -> Result<Figures, Refusal>
    ensures { result ≡ at_noon (state_of head terms.now counts.now) }
{
    let audit = audited(head, terms, counts).ok_or(Refusal::UNSOUND)?;
    Ok(Figures {
        full: audit.full,
        claim: audit.claim,
        floor: share(head.plan) * total_due(head, terms, counts),
    })
}
