// What the day could have earned, its check, and the takings of an allotment, for a state in lent memory, of which only
// the plan counts once it is sound.
ghost use Rattle.std.specs.Prelude.{◌≡◌};
ghost use Rattle.wezghuli.specs.Search.{search_status, SearchLeaves, check_status};
ghost use Rattle.wezghuli.specs.Search.{takings_status, takings_after};

use encoding::{STATUS_ACCEPTED, STATUS_NO_FIT, given_head};

// An allotment of the views with the greatest takings, with a figure for each campaign and for each view.
// `wezghuli_takings` gives these takings: a lent array for them would be an eighth parameter.
#[tactic(auto, unfolding(crate::specs::Search::search_status))]
pub fn wezghuli_search<'a>(
    head: &'a [u64; 7],
    terms: &'a [u32; 128],
    counts: &'a [u16; 256],
    views: &'a [u64],
    allotment: &'a mut [u64],
    surplus: &'a mut [u64],
    worth: &'a mut [u64],
) -> u64
    ensures value { result ≡ search_status head.now terms.now counts.now
        views.now allotment.old surplus.old worth.old }
    ensures search_leaves { SearchLeaves head.now terms.now counts.now views.now
        allotment.old allotment.new surplus.old surplus.new
        worth.old worth.new }
{
    match given_head(head) {
        Ok(given) => match optimum::search(given, terms, counts, views, allotment, surplus, worth) {
            Ok(_) => STATUS_ACCEPTED,
            Err(refusal) => refusal.question,
        },
        Err(status) => status,
    }
}

// Is this an allotment with figures that fit it, and so one with the greatest takings?
#[tactic(auto, unfolding(crate::specs::Search::check_status))]
pub fn wezghuli_check<'a>(
    head: &'a [u64; 7],
    terms: &'a [u32; 128],
    counts: &'a [u16; 256],
    views: &'a [u64],
    allotment: &'a [u64],
    surplus: &'a [u64],
    worth: &'a [u64],
) -> u64
    ensures { result ≡ check_status head.now terms.now counts.now
        views.now allotment.now surplus.now worth.now }
{
    match given_head(head) {
        Ok(given) => match optimum::check(given, terms, counts, views, allotment, surplus, worth) {
            Ok(true) => STATUS_ACCEPTED,
            Ok(false) => STATUS_NO_FIT,
            Err(refusal) => refusal.question,
        },
        Err(status) => status,
    }
}

// The takings of an allotment: of what the search left, the greatest. The state stays, and a refusal leaves the takings
// as they were.
pub fn wezghuli_takings<'a>(
    head: &'a [u64; 7],
    terms: &'a [u32; 128],
    counts: &'a [u16; 256],
    allotment: &'a [u64],
    takings: &'a mut [u64; 1],
) -> u64
    ensures { (result ≡ takings_status head.now terms.now counts.now
        allotment.now)
        × (takings.new ≡ takings_after head.now terms.now counts.now
        allotment.now takings.old) }
{
    match given_head(head) {
        Ok(given) => match optimum::takings(given, terms, counts, allotment) {
            Ok(sum) => {
                *takings = [sum];
                STATUS_ACCEPTED
            }
            Err(refusal) => refusal.question,
        },
        Err(status) => status,
    }
}
