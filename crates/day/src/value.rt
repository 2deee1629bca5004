// The operations on a state by value: copies of its arrays are lent to the operations in place.
ghost use Rattle.std.specs.Prelude.{◌≡◌, true, false};
ghost use Rattle.day.specs.Day.{blank};
ghost use Rattle.day.specs.Calls.{day_limits, call};
ghost use Rattle.day.specs.Calls.Call.{open_plan, add_campaign, start_day, show_view, ask_tally, close_day};
ghost use Rattle.day.specs.Calls.Call.{mark_campaign};
ghost use Rattle.day.specs.Day.{audited, head_of, state_of};
ghost use Rattle.day.specs.InPlace.{asked};

use crate::ops::{audited, execute};
use crate::{Call, Day, Outcome};
use audit::Audit;
use campaigns::{Head, Plan, Terms, View};

impl Day {
    // The limits, for callers; they are those of `Plan` and `Terms`.
    pub const MAX_CAMPAIGNS: u64 = Plan::MAX_CAMPAIGNS;

    pub const MAX_VIEWS: u64 = Plan::MAX_VIEWS;

    pub const MAX_DEPTH: u64 = Plan::MAX_DEPTH;

    pub const MAX_WIDTH: u64 = Plan::MAX_WIDTH;

    pub const MAX_POWER: u64 = Plan::MAX_POWER;

    pub const MAX_PRICE: u64 = Terms::MAX_PRICE;

    pub const MAX_BUDGET: u64 = Terms::MAX_BUDGET;

    // All of them, in the order above.
    pub fn limits() -> [u64; 7]
        ensures { result ≡ day_limits }
    {
        [
            Self::MAX_CAMPAIGNS,
            Self::MAX_VIEWS,
            Self::MAX_DEPTH,
            Self::MAX_WIDTH,
            Self::MAX_POWER,
            Self::MAX_PRICE,
            Self::MAX_BUDGET,
        ]
    }

    // The blank state: Closed, depth 1, width 1, no campaigns.
    pub fn blank() -> Self
        ensures { result ≡ blank }
    {
        Self::from_parts(crate::blank(), [0; 128], [0; 256])
    }

    // The state but for its campaigns.
    pub fn head(self) -> Head
        ensures { result ≡ head_of self }
    {
        Head {
            phase: self.phase,
            plan: self.plan,
            count: self.count,
            accepted: self.accepted,
            paused: self.paused,
        }
    }

    // The state of a head and the arrays of its campaigns.
    pub fn from_parts(head: Head, terms: [u32; 128], counts: [u16; 256]) -> Self
        ensures { result ≡ state_of head terms counts }
    {
        Self {
            phase: head.phase,
            plan: head.plan,
            count: head.count,
            accepted: head.accepted,
            paused: head.paused,
            terms,
            counts,
        }
    }

    // The figures of the state, if it is sound.
    pub fn audit(self) -> Option<Audit>
        ensures { result ≡ audited self }
    {
        audited(self.head(), &self.terms, &self.counts)
    }

    // Any call.
    pub fn execute(self, ask: Call) -> Outcome
        ensures { result ≡ call self (asked ask) }
    {
        let mut terms = self.terms;
        let mut counts = self.counts;
        let step = execute(self.head(), ask, &mut terms, &mut counts);
        Outcome {
            day: Day::from_parts(step.head, terms, counts),
            answer: step.answer,
        }
    }

    // A new plan with no campaigns, in Filling.
    pub fn open(self, plan: Plan) -> Outcome
        ensures { result ≡ call self (open_plan plan) }
    {
        self.execute(Call::Open(plan))
    }

    // One campaign more, with zero counts.
    pub fn add(self, terms: Terms) -> Outcome
        ensures { result ≡ call self (add_campaign terms) }
    {
        self.execute(Call::Add(terms))
    }

    // The day starts: no campaign is added from now on.
    pub fn start(self) -> Outcome
        ensures { result ≡ call self start_day }
    {
        self.execute(Call::Start)
    }

    // The play of a view, or nobody.
    pub fn view(self, view: View) -> Outcome
        ensures { result ≡ call self (show_view view) }
    {
        self.execute(Call::Show(view))
    }

    // The four counts of a campaign; the state stays.
    pub fn tally(self, campaign: u64) -> Outcome
        ensures { result ≡ call self (ask_tally campaign) }
    {
        self.execute(Call::Tally(campaign))
    }

    // The day closes with its takings, total claim and full.
    pub fn close(self) -> Outcome
        ensures { result ≡ call self close_day }
    {
        self.execute(Call::Close)
    }

    // The campaign is as one that no view names, until it is resumed.
    pub fn pause(self, campaign: u64) -> Outcome
        ensures { result ≡ call self (mark_campaign true campaign) }
    {
        self.execute(Call::Pause(campaign))
    }

    // The campaign takes part again.
    pub fn resume(self, campaign: u64) -> Outcome
        ensures { result ≡ call self (mark_campaign false campaign) }
    {
        self.execute(Call::Resume(campaign))
    }
}
