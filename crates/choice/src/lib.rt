// The walk over the campaigns that a view names: the choice, and what the view makes of their counts.
#![tactic(auto)]

ghost use Rattle.std.specs.Prelude.{◌≡◌, true, ◌≤◌, ◌<◌};
ghost use Rattle.campaigns.specs.Limits.{max_campaigns};
ghost use Rattle.campaigns.specs.Campaign.{priced, campaign_at};
ghost use Rattle.campaigns.specs.Cited.{FitsArrays, Sized, Weights};
ghost use Rattle.choice.specs.Candidates.{compared, candidate_of, after_view};
ghost use Rattle.choice.specs.Walk.{walked};
ghost use Rattle.choice.specs.Cited.{put, Counts, InBounds};

use campaigns::entry::entry;
use campaigns::weights::weigh;
use campaigns::{AGES, Campaign, NAMED, Plan, TURNS, View};
use sets::Members;

// A candidate to play: a campaign, what it would pay, and its score.
#[derive(Clone, Copy, Debug, PartialEq, Eq)]
pub struct Candidate {
    pub campaign: u64,
    pub paid: u64,
    pub score: u64,
}

// The better of `best` and campaign `at`, which is better if it can pay and there is no candidate yet or its score is
// greater: equal scores stay with the one that was tried before. The view has no say in it beyond the name. Both tests
// come before the one choice: leaving early where it cannot pay costs a view of 16 names some 10 ns.
#[tactic(auto, unfolding(crate::specs::Candidates::compared))]
fn compare(
    best: Option<Candidate>,
    at: u64,
    c: Campaign,
    plan: Plan,
    weights: &[u64; 33],
) -> Option<Candidate>
    requires weights { Weights plan weights.now }
    requires fits_arrays { FitsArrays c }
    requires c_value { priced c ≡ true }
    requires age_le_depth { c.age ≤ plan.depth }
    ensures { (w : View) → result ≡ compared plan w best at c }
{
    let score = c.price * weigh(c.age, plan, weights);
    let behind = match best {
        Some(held) => held.score < score,
        None => true,
    };
    if c.can_pay() & behind {
        Some(Candidate {
            campaign: at,
            paid: c.price,
            score,
        })
    } else {
        best
    }
}

// Campaign i's counts into the array; all others stay.
fn store(i: usize, c: Campaign, counts: &mut [u16; 256])
    requires { (i < max_campaigns) × FitsArrays c }
    ensures { counts.new ≡ put counts.old i c }
{
    counts[i] = c.plays as u16;
    counts[i + TURNS] = c.turns as u16;
    counts[i + AGES] = c.age as u16;
    counts[i + NAMED] = c.named as u16;
}

// One walk over the named campaigns, from the least to the next: each is compared with the best so far, and each is
// counted as passed over, since who plays is known at the end alone.
fn walk<'a>(
    view: View,
    plan: Plan,
    weights: &'a [u64; 33],
    terms: &'a [u32; 128],
    counts: &'a mut [u16; 256],
) -> Option<Candidate>
    requires weights { Weights plan weights.now }
    requires sized { Sized terms.now counts.old }
    requires in_bounds { InBounds plan view (campaign_at terms.now counts.old) }
    ensures value { result ≡ (walked plan view (campaign_at terms.now counts.old)).best }
    ensures counts { Counts (walked plan view (campaign_at terms.now counts.old)).campaigns
        terms.now counts.new }
{
    let mut best = None;
    for i in Members(view.set) {
        let at = i as usize;
        let c = entry(at, terms, counts);
        best = compare(best, i, c, plan, weights);
        store(at, c.passed_over(plan.depth), counts);
    }
    best
}

// Who plays a view, and what the view makes of the counts of the campaigns that it names, stored where they stand.
pub fn play<'a>(
    view: View,
    plan: Plan,
    weights: &'a [u64; 33],
    terms: &'a [u32; 128],
    counts: &'a mut [u16; 256],
) -> Option<Candidate>
    requires weights { Weights plan weights.now }
    requires sized { Sized terms.now counts.old }
    requires in_bounds { InBounds plan view (campaign_at terms.now counts.old) }
    ensures value { result ≡ candidate_of plan view (campaign_at terms.now counts.old)
        max_campaigns }
    ensures counts { Counts (after_view plan view result (campaign_at terms.now counts.old))
        terms.now counts.new }
{
    let chosen = walk(view, plan, weights, terms, counts);
    if let Some(best) = chosen {
        let at = best.campaign as usize;
        let c = entry(at, terms, counts);
        store(at, c.played(), counts);
    }
    chosen
}
