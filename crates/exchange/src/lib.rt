// One more view for a campaign, by a chain of exchanges that moves a held view to another campaign.
#![tactic(auto)]

ghost use Rattle.std.specs.Prelude.{◌≡◌, ◌<◌, ◌≤◌, length};
ghost use Rattle.exchange.specs.Cited.{NoneFree, first_open, FreeIs, Bare, Seekable, SoughtIs};

// The entry of a view that is given to nobody.
pub use allotments::NOBODY;

// What a search ends with: a view was found, or none was, and then the set of campaigns visited. Either way the set of
// campaigns that are bare: no free view names them. A view that was once given is never free again, so that a bare
// campaign stays so.
#[derive(Clone, Copy)]
pub enum Sought {
    Found { bare: u64 },
    Shut { visited: u64, bare: u64 },
}

// The first view that is given to nobody, or the number of views. Those below `from` are given: a search starts to look
// where the last one ended.
pub fn first_open(n: usize, allotment: &[u64], from: usize) -> usize
    requires n_in_bounds { (n ≤ length allotment.now) × (from ≤ n) }
    requires none_free { NoneFree allotment.now from }
    ensures { result ≡ first_open n allotment.now }
{
    for j in from..n {
        if allotment[j] == NOBODY {
            return j;
        }
    }
    n
}

// The first view that names the campaign and is given to nobody. Those below `first` are given. The holder is tested
// first: that branch is foreseen, the other is not.
fn free_view(
    views: &[u64],
    allotment: &[u64],
    campaign: u64,
    first: usize,
    bare: u64,
) -> Option<usize>
    requires views_in_bounds { (length views.now ≤ length allotment.now) × (campaign < 64)
        × (first ≤ length views.now) }
    requires none_free { NoneFree allotment.now first × Bare views.now allotment.now bare }
    ensures { FreeIs views.now allotment.now campaign result }
{
    if sets::has(bare, campaign) {
        return None;
    }
    for j in first..views.len() {
        let holder = allotment[j];
        let v = views[j];
        if (holder == NOBODY) & sets::has(v, campaign) {
            return Some(j);
        }
    }
    None
}

// One more view for the campaign: a free one, or one whose holder gets another in its place. At each call the campaigns
// not visited are fewer. Which chain is found is free, and after a find so is `visited`; after none it is some set that
// is shut off (`Failed`). `bare` is some set of campaigns that no free view names.
pub fn seek(
    views: &[u64],
    allotment: &mut [u64],
    campaign: u64,
    visited: u64,
    first: usize,
    bare: u64,
) -> Sought
    requires { Seekable views.now allotment.old campaign visited first bare }
    ensures { SoughtIs views.now allotment.old allotment.new campaign visited result }
{
    if let Some(free) = free_view(views, allotment, campaign, first, bare) {
        allotment[free] = campaign;
        return Sought::Found { bare };
    }
    let mut seen = sets::including(visited, campaign);
    let mut known = sets::including(bare, campaign);
    for (j, view) in views.iter().enumerate() {
        if sets::has(*view, campaign) {
            let holder = allotment[j];
            if !sets::has(seen, holder) {
                match seek(views, allotment, holder, seen, first, known) {
                    Sought::Found { bare } => {
                        allotment[j] = campaign;
                        return Sought::Found { bare };
                    }
                    Sought::Shut { visited, bare } => {
                        seen = visited;
                        known = bare;
                    }
                }
            }
        }
    }
    Sought::Shut {
        visited: seen,
        bare: known,
    }
}
