// What the day could have earned: the search for an allotment with the greatest takings, and its check, for a state of
// any phase by its head and its two arrays.
#![tactic(auto)]

ghost use Rattle.std.specs.Prelude.{◌≡◌, ℕ, ◌<◌, ◌≤◌, length};
ghost use Rattle.campaigns.specs.Limits.{max_campaigns};
ghost use Rattle.finite.specs.Finite.{every};
ghost use Rattle.sets.specs.Set.{within};
ghost use Rattle.day.specs.Day.{state_of};
ghost use Rattle.allotments.specs.Allotment.{at};
ghost use Rattle.optimum.specs.Optimum.{failed, Searched, takings_answer, checked};
ghost use Rattle.optimum.specs.Cited.{admission, Divided};

use campaigns::{BUDGETS, Head};
use day::ops::audited;
use refusal::Refusal;

// Question 19's limit: what `admitted` and `takings` answer by it is proved against `max_handed_in`.
const MAX_HANDED_IN: usize = 256;

// Question 13 of every view.
fn all_within(count: u64, views: &[u64]) -> bool
    ensures { result ≡ every (length views.now) (λ j. within count (at views.now j)) }
{
    views.iter().all(|view| sets::within(*view, count))
}

// The first of questions 1, 19, 13 and 18 that fails refuses.
fn admitted<'a>(
    head: Head,
    terms: &'a [u32; 128],
    counts: &'a [u16; 256],
    views: &'a [u64],
    allotment: &'a [u64],
    surplus: &'a [u64],
    worth: &'a [u64],
) -> Result<(), Refusal>
    ensures { result ≡ admission (failed (state_of head terms.now counts.now)
        views.now allotment.now surplus.now worth.now) }
{
    if audited(head, terms, counts).is_none() {
        return Err(Refusal::UNSOUND);
    }
    let n = views.len();
    if MAX_HANDED_IN < n {
        return Err(Refusal::MANY_VIEWS);
    }
    if !all_within(head.count, views) {
        return Err(Refusal::OUTSIDE);
    }
    if (n <= allotment.len()) & (head.count <= surplus.len() as u64) & (n <= worth.len()) {
        return Ok(());
    }
    Err(Refusal::NO_ROOM)
}

// The whole plays of the first campaigns, divided out once.
fn whole_plays(count: u64, terms: &[u32; 128]) -> [u32; 64]
    requires { (count ≤ max_campaigns) × ((i : ℕ) → i < count → 0 < at terms.now i) }
    ensures { Divided count terms.now result }
{
    let n = count as usize;
    let mut wholes = [0u32; 64];
    for i in 0..n {
        wholes[i] = terms[i + BUDGETS] / terms[i];
    }
    wholes
}

// The greatest takings, and in the lent entries an allotment that takes them and figures that fit it; those beyond keep
// their values.
pub fn search<'a>(
    head: Head,
    terms: &'a [u32; 128],
    counts: &'a [u16; 256],
    views: &'a [u64],
    allotment: &'a mut [u64],
    surplus: &'a mut [u64],
    worth: &'a mut [u64],
) -> Result<u64, Refusal>
    ensures { Searched (state_of head terms.now counts.now) views.now
        allotment.old allotment.new surplus.old surplus.new
        worth.old worth.new result }
{
    // the questions only read what is lent
    admitted(head, terms, counts, views, &*allotment, &*surplus, &*worth)?;
    let wholes = whole_plays(head.count, terms);
    matching::allot(head.count, terms, &wholes, views, allotment, surplus, worth);
    Ok(certificate::takings(head.count, terms, views.len(), allotment))
}

// The takings of an allotment: its prices, summed.
pub fn takings<'a>(
    head: Head,
    terms: &'a [u32; 128],
    counts: &'a [u16; 256],
    allotment: &'a [u64],
) -> Result<u64, Refusal>
    ensures { result ≡ takings_answer (state_of head terms.now counts.now)
        allotment.now }
{
    if audited(head, terms, counts).is_none() {
        return Err(Refusal::UNSOUND);
    }
    let entries = allotment.len();
    if MAX_HANDED_IN < entries {
        return Err(Refusal::MANY_VIEWS);
    }
    Ok(certificate::takings(head.count, terms, entries, allotment))
}

// Is this an allotment with figures that fit it?
pub fn check<'a>(
    head: Head,
    terms: &'a [u32; 128],
    counts: &'a [u16; 256],
    views: &'a [u64],
    allotment: &'a [u64],
    surplus: &'a [u64],
    worth: &'a [u64],
) -> Result<bool, Refusal>
    ensures { result ≡ checked (state_of head terms.now counts.now) views.now
        allotment.now surplus.now worth.now }
{
    admitted(head, terms, counts, views, allotment, surplus, worth)?;
    let wholes = whole_plays(head.count, terms);
    Ok(certificate::certified(head.count, terms, wholes, views, allotment, surplus, worth))
}
