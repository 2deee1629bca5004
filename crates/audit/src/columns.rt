// Soundness of the campaigns by columns: each test runs over whole columns in the arrays' own widths and without a
// branch, so that several entries are tested at once. `columns_hold` makes them all, of at most 64 campaigns.
ghost use Rattle.std.specs.Prelude.{◌≡◌, ◌≤◌};
ghost use Rattle.powers.specs.Limits.{max_depth};
ghost use Rattle.campaigns.specs.Limits.{max_campaigns, max_views};
ghost use Rattle.campaigns.specs.Campaign.{campaign_at};
ghost use Rattle.audit.specs.Cited.{priced_columns, ordered_columns, untouched_columns, no_terms_from};
ghost use Rattle.audit.specs.Cited.{no_counts_in, empty_from, columns_hold};

use campaigns::{AGES, BUDGETS, Head, NAMED, Phase, TURNS};

// The limits of questions 8 and 9 in the widths of the arrays.
const MAX_PRICE: u32 = 1_000_000;

const MAX_BUDGET: u32 = 2_000_000_000;

// The first n campaigns keep these limits.
fn priced_all<'a>(n: usize, terms: &'a [u32; 128], counts: &'a [u16; 256]) -> bool
    requires { n ≤ max_campaigns }
    ensures { result ≡ priced_columns n (campaign_at terms.now counts.now) }
{
    let mut fit = true;
    for i in 0..n {
        let price = terms[i];
        let budget = terms[i + BUDGETS];
        fit &= (1 <= price) & (price <= MAX_PRICE) & (price <= budget) & (budget <= MAX_BUDGET);
    }
    fit
}

// age < depth and plays ≤ turns ≤ named ≤ accepted views, for the first n campaigns.
fn ordered_all<'a>(
    n: usize,
    depth: u16,
    accepted: u16,
    terms: &'a [u32; 128],
    counts: &'a [u16; 256],
) -> bool
    requires { n ≤ max_campaigns }
    ensures { result ≡ ordered_columns depth accepted n (campaign_at terms.now counts.now) }
{
    let mut fit = true;
    for i in 0..n {
        let turns = counts[i + TURNS];
        let named = counts[i + NAMED];
        fit &= (counts[i + AGES] < depth)
            & (counts[i] <= turns)
            & (turns <= named)
            & (named <= accepted);
    }
    fit
}

// The prices and budgets from entry n on are zero: one "or" over each column.
fn no_terms_from<'a>(n: usize, terms: &'a [u32; 128], counts: &'a [u16; 256]) -> bool
    requires { n ≤ max_campaigns }
    ensures { result ≡ no_terms_from n (campaign_at terms.now counts.now) max_campaigns }
{
    let mut any: u32 = 0;
    for i in n..64 {
        any |= terms[i] | terms[i + BUDGETS];
    }
    any == 0
}

// The counts from entry n on and below entry m are zero.
fn no_counts_in<'a>(n: usize, m: usize, terms: &'a [u32; 128], counts: &'a [u16; 256]) -> bool
    requires { (n ≤ m) × (m ≤ max_campaigns) }
    ensures { result ≡ no_counts_in n (campaign_at terms.now counts.now) m }
{
    let mut any: u16 = 0;
    for i in n..m {
        any |= counts[i] | counts[i + TURNS] | counts[i + AGES] | counts[i + NAMED];
    }
    any == 0
}

// In Filling the counts of the first n campaigns are zero.
fn untouched_all<'a>(phase: Phase, n: usize, terms: &'a [u32; 128], counts: &'a [u16; 256]) -> bool
    requires { n ≤ max_campaigns }
    ensures { result ≡ untouched_columns phase n (campaign_at terms.now counts.now) }
{
    !phase.filling() || no_counts_in(0, n, terms, counts)
}

// The entries from n on are all zero.
fn empty_from<'a>(n: usize, terms: &'a [u32; 128], counts: &'a [u16; 256]) -> bool
    requires { n ≤ max_campaigns }
    ensures { result ≡ empty_from n (campaign_at terms.now counts.now) }
{
    no_terms_from(n, terms, counts) && no_counts_in(n, 64, terms, counts)
}

// Every test by columns. It is made before any sum: prices and ages that pass it bound what is summed.
pub fn columns_hold<'a>(head: Head, n: usize, terms: &'a [u32; 128], counts: &'a [u16; 256]) -> bool
    requires { (n ≤ max_campaigns) × (head.plan.depth ≤ max_depth) × (head.accepted ≤ max_views) }
    ensures { result ≡ columns_hold head.phase head.plan head.accepted n
        (campaign_at terms.now counts.now) }
{
    let depth = head.plan.depth as u16;
    let views = head.accepted as u16;
    priced_all(n, terms, counts)
        && ordered_all(n, depth, views, terms, counts)
        && untouched_all(head.phase, n, terms, counts)
        && empty_from(n, terms, counts)
}
