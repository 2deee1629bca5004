// An allotment of views with the greatest takings: campaigns are served in falling price, each play sought through a
// chain of exchanges.
#![tactic(auto)]

ghost use Rattle.std.specs.Prelude.{◌≡◌, ℕ, ◌<◌, ◌≤◌, length};
ghost use Rattle.campaigns.specs.Limits.{max_campaigns};
ghost use Rattle.allotments.specs.Allotment.{at};
ghost use Rattle.allotments.specs.Cited.{EnoughLent};
ghost use Rattle.exchange.specs.Cited.{Seekable};
ghost use Rattle.matching.specs.Method.{Everyone, Dearest};
ghost use Rattle.matching.specs.Cited.{ServedIs, Frozen, Unserved, Matched};
ghost use Rattle.matching.specs.Cited.{campaign_figure, view_figure, Filled, BestIs};

use allotments::NOBODY;
use exchange::Sought;
use sets::Members;

// After a campaign is served: the campaigns closed, and those that no free view names.
#[derive(Clone, Copy)]
struct After {
    closed: u64,
    bare: u64,
}

// As many views for the campaign as its plays, or until none is found.
fn serve(
    views: &[u64],
    allotment: &mut [u64],
    campaign: u64,
    closed: u64,
    plays: u64,
    from: usize,
    bare: u64,
) -> After
    requires { Seekable views.now allotment.old campaign closed from bare }
    ensures { ServedIs views.now allotment.old allotment.new campaign closed
        plays result.closed result.bare }
{
    let n = views.len();
    let mut first = from;
    let mut known = bare;
    for _ in 0..plays {
        first = exchange::first_open(n, allotment, first);
        match exchange::seek(views, allotment, campaign, closed, first, known) {
            Sought::Found { bare } => known = bare,
            Sought::Shut { visited, bare } => {
                return After {
                    closed: visited,
                    bare,
                };
            }
        }
    }
    After {
        closed,
        bare: known,
    }
}

// The campaigns of the plan, as a set.
fn everyone(count: u64) -> u64
    requires { count ≤ max_campaigns }
    ensures { Everyone count result }
{
    if count == 64 {
        u64::MAX
    } else {
        (1 << count) - 1
    }
}

// Of the campaigns not served, of which there is one, a dearest. Which of equals is free: any gives the greatest
// takings.
fn dearest(prices: &[u32; 128], unserved: u64) -> u64
    requires { unserved ≡ 0 → ⊥ }
    ensures { Dearest (at prices.now) unserved result }
{
    let mut best = sets::first(unserved);
    let start = best as usize;
    let mut top = prices[start];
    for c in Members(sets::rest(unserved)) {
        let at = c as usize;
        let p = prices[at];
        let dearer = top < p;
        if dearer {
            best = c;
            top = p;
        }
    }
    best
}

// The price for every campaign of the set, which a search that failed has closed; the set is empty where none failed.
fn freeze(level: &mut [u64; 64], set: u64, price: u64)
    requires { length level.old ≡ 64 }
    ensures { Frozen level.old level.new set price }
{
    for c in Members(set) {
        let at = c as usize;
        level[at] = price;
    }
}

// All campaigns served, and the levels at which they closed.
fn match_all<'a>(
    count: u64,
    prices: &'a [u32; 128],
    wholes: &'a [u32; 64],
    views: &'a [u64],
    allotment: &'a mut [u64],
    level: &'a mut [u64; 64],
)
    requires { Unserved count views.now allotment.old level.old }
    ensures { Matched count prices.now wholes.now views.now
        allotment.old allotment.new level.new }
{
    let n = views.len();
    let mut first = 0;
    let mut closed = 0;
    let mut bare = 0;
    let mut unserved = everyone(count);
    while unserved != 0 {
        let c = dearest(prices, unserved);
        let at = c as usize;
        let price = u64::from(prices[at]);
        let plays = u64::from(wholes[at]);
        first = exchange::first_open(n, allotment, first);
        let after = serve(views, allotment, c, closed, plays, first, bare);
        freeze(level, sets::without(after.closed, closed), price);
        closed = after.closed;
        bare = after.bare;
        unserved = sets::without(unserved, sets::including(0, c));
    }
}

// What each campaign's price exceeds its level by.
fn write_campaign_figures<'a>(
    count: u64,
    prices: &'a [u32; 128],
    level: &'a [u64; 64],
    surplus: &'a mut [u64],
)
    requires count_le_max_campaigns { (count ≤ max_campaigns) × (count ≤ length surplus.old) }
    requires by_index { (d : ℕ) → d < count → at level.now d ≤ at prices.now d }
    ensures { Filled surplus.old surplus.new count (campaign_figure prices.now
        level.now) }
{
    for c in 0..count as usize {
        surplus[c] = u64::from(prices[c]) - level[c];
    }
}

// The level of each view's holder, 0 where it has none.
fn write_view_figures<'a>(
    n: usize,
    allotment: &'a [u64],
    level: &'a [u64; 64],
    worth: &'a mut [u64],
)
    requires { (n ≤ length allotment.now) × (n ≤ length worth.old) }
    ensures { Filled worth.old worth.new n (view_figure allotment.now
        level.now) }
{
    for j in 0..n {
        let holder = allotment[j] as usize;
        worth[j] = level.get(holder).copied().unwrap_or(0);
    }
}

// An allotment with the greatest takings, with a figure for each campaign and each view. Which of several greatest
// allotments comes out, and which figures that fit it, is free.
pub fn allot<'a>(
    count: u64,
    prices: &'a [u32; 128],
    wholes: &'a [u32; 64],
    views: &'a [u64],
    allotment: &'a mut [u64],
    surplus: &'a mut [u64],
    worth: &'a mut [u64],
)
    requires { EnoughLent count views.now allotment.old surplus.old worth.old }
    ensures { BestIs count prices.now wholes.now views.now
        allotment.old allotment.new surplus.old surplus.new
        worth.old worth.new }
{
    let n = views.len();
    allotment[..n].fill(NOBODY);
    let mut level = [0u64; 64];
    match_all(count, prices, wholes, views, allotment, &mut level);
    write_campaign_figures(count, prices, &level, surplus);
    write_view_figures(n, allotment, &level, worth);
}
