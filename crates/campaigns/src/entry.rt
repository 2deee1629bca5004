// Reading one campaign out of the arrays.
ghost use Rattle.std.specs.Prelude.{◌≡◌, ◌<◌};
ghost use Rattle.campaigns.specs.Limits.{max_campaigns};
ghost use Rattle.campaigns.specs.Campaign.{campaign_at};
ghost use Rattle.campaigns.specs.Cited.{FitsArrays};

use crate::{AGES, BUDGETS, Campaign, NAMED, TURNS};

// Campaign i, read out of the six columns: none of its numbers is wider than its column.
pub fn entry<'a>(i: usize, terms: &'a [u32; 128], counts: &'a [u16; 256]) -> Campaign
    requires { i < max_campaigns }
    ensures { (result ≡ campaign_at terms.now counts.now i) × FitsArrays result }
{
    Campaign {
        price: u64::from(terms[i]),
        budget: u64::from(terms[i + BUDGETS]),
        plays: u64::from(counts[i]),
        turns: u64::from(counts[i + TURNS]),
        age: u64::from(counts[i + AGES]),
        named: u64::from(counts[i + NAMED]),
    }
}
