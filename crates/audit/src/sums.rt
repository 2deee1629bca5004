// The sums that soundness compares, over campaigns whose tests by columns pass.
ghost use Rattle.std.specs.Prelude.{◌≡◌, ◌≤◌};
ghost use Rattle.campaigns.specs.Limits.{max_campaigns};
ghost use Rattle.campaigns.specs.Campaign.{campaign_at};
ghost use Rattle.campaigns.specs.Cited.{Weights};
ghost use Rattle.audit.specs.Cited.{spent_of, waited_of, EntriesBounded, summed};

use campaigns::weights::weigh;
use campaigns::{AGES, BUDGETS, Plan, TURNS};

// The sums that soundness compares.
#[derive(Clone, Copy)]
pub struct Sums {
    pub budgets: u64,
    pub takings: u64,
    // of price × turns
    pub turned: u64,
    // of price × (W(age) − W(0))
    pub waited: u64,
}

// Those that no weight enters.
#[derive(Clone, Copy)]
pub struct Spent {
    pub budgets: u64,
    pub takings: u64,
    pub turned: u64,
}

// The sums that no weight enters, unless a campaign has paid more than its budget. No sum of 64 products of a u32 and a
// u16 overflows.
fn spend_all<'a>(n: usize, terms: &'a [u32; 128], counts: &'a [u16; 256]) -> Option<Spent>
    requires { n ≤ max_campaigns }
    ensures { result ≡ spent_of n (campaign_at terms.now counts.now) }
{
    let mut budgets: u64 = 0;
    let mut takings: u64 = 0;
    let mut turned: u64 = 0;
    for i in 0..n {
        let price = u64::from(terms[i]);
        let budget = u64::from(terms[i + BUDGETS]);
        let spent = price * u64::from(counts[i]);
        if budget < spent {
            return None;
        }
        budgets += budget;
        takings += spent;
        turned += price * u64::from(counts[i + TURNS]);
    }
    Some(Spent {
        budgets,
        takings,
        turned,
    })
}

// The sum of price × (W(age) − W(0)), of campaigns whose prices and ages are within their limits.
fn wait_all<'a>(
    n: usize,
    plan: Plan,
    weights: &'a [u64; 33],
    terms: &'a [u32; 128],
    counts: &'a [u16; 256],
) -> u64
    requires n_le_max_campaigns { n ≤ max_campaigns }
    requires weights { Weights plan weights.now }
    requires entries_bounded { EntriesBounded plan n (campaign_at terms.now counts.now) }
    ensures { result ≡ waited_of plan n (campaign_at terms.now counts.now) }
{
    let low = weigh(0, plan, weights);
    let mut sum: u64 = 0;
    for i in 0..n {
        let weight = weigh(u64::from(counts[i + AGES]), plan, weights);
        sum += u64::from(terms[i]) * (weight - low);
    }
    sum
}

// The sums over the first n campaigns, whose tests by columns pass, unless one has paid more than its budget.
pub fn sum_all<'a>(
    n: usize,
    plan: Plan,
    weights: &'a [u64; 33],
    terms: &'a [u32; 128],
    counts: &'a [u16; 256],
) -> Option<Sums>
    requires n_le_max_campaigns { n ≤ max_campaigns }
    requires weights { Weights plan weights.now }
    requires entries_bounded { EntriesBounded plan n (campaign_at terms.now counts.now) }
    ensures { result ≡ summed plan n (campaign_at terms.now counts.now) }
{
    let Spent {
        budgets,
        takings,
        turned,
    } = spend_all(n, terms, counts)?;
    let waited = wait_all(n, plan, weights, terms, counts);
    Some(Sums {
        budgets,
        takings,
        turned,
        waited,
    })
}
