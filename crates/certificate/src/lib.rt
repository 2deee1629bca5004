// The check of an allotment with its figures, for entries and figures of any 64 bits: nothing is added up that could
// wrap, but counted down from what there is.
#![tactic(auto)]

ghost use Rattle.std.specs.Prelude.{◌≡◌, true, ◌*◌, ◌<◌, ◌≤◌, leb, eqb, length};
ghost use Rattle.campaigns.specs.Limits.{max_campaigns};
ghost use Rattle.finite.specs.Finite.{sum, every};
ghost use Rattle.sets.specs.Set.{within};
ghost use Rattle.allotments.specs.Limits.{max_handed_in};
ghost use Rattle.allotments.specs.Allotment.{at, times, takings, entry_fits, covered, certified};
ghost use Rattle.allotments.specs.Cited.{Market, EnoughLent};
ghost use Rattle.certificate.specs.Cited.{rest_left};

use allotments::NOBODY;
use sets::Members;

// Is the entry nobody, or a campaign that the view names?
fn entry_fits(view: u64, entry: u64) -> bool
    ensures { result ≡ entry_fits view entry }
{
    entry == NOBODY || entry < 64 && sets::has(view, entry)
}

fn entries_fit(views: &[u64], allotment: &[u64]) -> bool
    requires { length views.now ≤ length allotment.now }
    ensures { result ≡ every (length views.now)
        (λ j. entry_fits (at views.now j) (at allotment.now j)) }
{
    views
        .iter()
        .zip(allotment)
        .all(|(view, entry)| entry_fits(*view, *entry))
}

// Is no campaign given more than its whole plays? Each view that it is given takes one of them.
fn plays_fit(count: u64, wholes: [u32; 64], n: usize, allotment: &[u64]) -> bool
    requires { (count ≤ max_campaigns) × (n ≤ length allotment.now) }
    ensures { result ≡ every count (λ i. leb (times n (at allotment.now) i) (at wholes i)) }
{
    let mut left = wholes;
    for entry in &allotment[..n] {
        if *entry < count {
            let i = *entry as usize;
            if left[i] == 0 {
                return false;
            }
            left[i] -= 1;
        }
    }
    true
}

// Is the price of each campaign that the view names at most its figure and the view's together? What the price exceeds
// the campaign's figure by is compared with the view's.
fn view_covered<'a>(
    count: u64,
    prices: &'a [u32; 128],
    surplus: &'a [u64],
    view: u64,
    figure: u64,
) -> bool
    requires { (count ≤ max_campaigns) × (count ≤ length surplus.now) × (within count view ≡ true) }
    ensures { result ≡ covered count (at prices.now) (at surplus.now) view figure }
{
    for c in Members(view) {
        let at = c as usize;
        let price = u64::from(prices[at]);
        if figure < price.saturating_sub(surplus[at]) {
            return false;
        }
    }
    true
}

fn views_covered<'a>(
    count: u64,
    prices: &'a [u32; 128],
    views: &'a [u64],
    surplus: &'a [u64],
    worth: &'a [u64],
) -> bool
    requires { Market count views.now × (count ≤ length surplus.now)
        × (length views.now ≤ length worth.now) }
    ensures { result ≡ every (length views.now) (λ j. covered count (at prices.now)
        (at surplus.now) (at views.now j) (at worth.now j)) }
{
    for (j, view) in views.iter().enumerate() {
        if !view_covered(count, prices, surplus, *view, worth[j]) {
            return false;
        }
    }
    true
}

// The takings of an allotment.
pub fn takings<'a>(count: u64, prices: &'a [u32; 128], n: usize, allotment: &'a [u64]) -> u64
    requires { (count ≤ max_campaigns) × (n ≤ max_handed_in) × (n ≤ length allotment.now) }
    ensures { result ≡ takings count (at prices.now) n (at allotment.now) }
{
    let mut sum = 0;
    for entry in &allotment[..n] {
        if *entry < count {
            let at = *entry as usize;
            sum += u64::from(prices[at]);
        }
    }
    sum
}

// What is left of an amount after each campaign's figure times its whole plays, if it is enough for them.
fn less_campaigns(count: u64, wholes: [u32; 64], surplus: &[u64], amount: u64) -> Option<u64>
    requires { (count ≤ max_campaigns) × (count ≤ length surplus.now) }
    ensures { result ≡ rest_left (sum count (λ i. at surplus.now i * at wholes i)) amount }
{
    let mut left = amount;
    for i in 0..count as usize {
        let part = surplus[i].checked_mul(u64::from(wholes[i]))?;
        left = left.checked_sub(part)?;
    }
    Some(left)
}

// What is left of an amount after each view's figure, if it is enough for them.
fn less_views(n: usize, worth: &[u64], amount: u64) -> Option<u64>
    requires { n ≤ length worth.now }
    ensures { result ≡ rest_left (sum n (at worth.now)) amount }
{
    let mut left = amount;
    for own in &worth[..n] {
        left = left.checked_sub(*own)?;
    }
    Some(left)
}

// Is this an allotment with figures that fit it?
pub fn certified<'a>(
    count: u64,
    prices: &'a [u32; 128],
    wholes: [u32; 64],
    views: &'a [u64],
    allotment: &'a [u64],
    surplus: &'a [u64],
    worth: &'a [u64],
) -> bool
    requires { EnoughLent count views.now allotment.now surplus.now worth.now
        × (length views.now ≤ max_handed_in) }
    ensures { result ≡ certified count (at prices.now) (at wholes) (length views.now)
        (at views.now) (at allotment.now) (at surplus.now)
        (at worth.now) }
{
    let n = views.len();
    let allotted = entries_fit(views, allotment) & plays_fit(count, wholes, n, allotment);
    let covered = views_covered(count, prices, views, surplus, worth);
    let sum = takings(count, prices, n, allotment);
    let rest = less_campaigns(count, wholes, surplus, sum).and_then(|left| less_views(
        n, worth, left,
    ));
    allotted & covered & (rest == Some(0))
}
