// What the day could have earned, its check, and the takings of an allotment, for a state in lent memory, of which only
// the plan counts once it is sound.
ghost use Rattle.std.specs.Prelude.{◌≡◌};
ghost use Rattle.wezghuli.specs.Search.{search_status, SearchLeaves, check_status};
ghost use Rattle.wezghuli.specs.Search.{takings_status, takings_after};

// An allotment of the views with the greatest takings, with a figure for each campaign and for each view.
// `wezghuli_takings` gives these takings: a lent array for them would be an eighth parameter.
#[unsafe(no_mangle)]
pub extern "C" fn wezghuli_search<'a>(
    head: &'a [u64; 7],
    terms: &'a [u32; 128],
    counts: &'a [u16; 256],
    views: &'a [u64],
    allotment: &'a mut [u64],
    surplus: &'a mut [u64],
    worth: &'a mut [u64],
) -> u64
    ensures value { result ≡ search_status head.now terms.now counts.now
        views.now allotment.old surplus.old worth.old }
    ensures search_leaves { SearchLeaves head.now terms.now counts.now views.now
        allotment.old allotment.new surplus.old surplus.new
        worth.old worth.new }
{
    wezghuli::search::wezghuli_search(head, terms, counts, views, allotment, surplus, worth)
}

// Is this an allotment with figures that fit it, and so one with the greatest takings?
#[unsafe(no_mangle)]
pub extern "C" fn wezghuli_check<'a>(
    head: &'a [u64; 7],
    terms: &'a [u32; 128],
    counts: &'a [u16; 256],
    views: &'a [u64],
    allotment: &'a [u64],
    surplus: &'a [u64],
    worth: &'a [u64],
) -> u64
    ensures { result ≡ check_status head.now terms.now counts.now
        views.now allotment.now surplus.now worth.now }
{
    wezghuli::search::wezghuli_check(head, terms, counts, views, allotment, surplus, worth)
}

// The takings of an allotment: of what the search left, the greatest. The state stays, and a refusal leaves the takings
// as they were.
#[unsafe(no_mangle)]
pub extern "C" fn wezghuli_takings<'a>(
    head: &'a [u64; 7],
    terms: &'a [u32; 128],
    counts: &'a [u16; 256],
    allotment: &'a [u64],
    takings: &'a mut [u64; 1],
) -> u64
    ensures { (result ≡ takings_status head.now terms.now counts.now
        allotment.now)
        × (takings.new ≡ takings_after head.now terms.now counts.now
        allotment.now takings.old) }
{
    wezghuli::search::wezghuli_takings(head, terms, counts, allotment, takings)
}
