// A plan, its phases and its campaigns: the rules for one campaign. Campaigns stand by columns in two flat arrays of
// small integers, which are lent: `terms` has the prices and the budgets; `counts` has the plays, the turns, the ages
// and how often each was named.
#![tactic(auto)]

pub mod entry;
pub mod rules;
pub mod weights;

// Where the columns behind the first begin in `terms`: campaign i's price is `terms[i]`, its budget
// `terms[i + BUDGETS]`.
pub const BUDGETS: usize = 64;

// The same in `counts`: its plays are `counts[i]`.
pub const TURNS: usize = 64;

pub const AGES: usize = 128;

pub const NAMED: usize = 192;

// What is handed to an opening.
#[derive(Clone, Copy, Debug, PartialEq, Eq)]
pub struct Plan {
    pub depth: u64,
    pub width: u64,
}

// What is handed to an adding.
#[derive(Clone, Copy, Debug, PartialEq, Eq)]
pub struct Terms {
    pub price: u64,
    pub budget: u64,
}

// What is handed to a view: bit i of the set stands for campaign i.
#[derive(Clone, Copy, Debug, PartialEq, Eq)]
pub struct View {
    pub set: u64,
}

#[derive(Clone, Copy, Debug, PartialEq, Eq)]
pub enum Phase {
    Filling,
    Running,
    // with the final takings
    Closed(u64),
}

// A state but for its campaigns.
#[derive(Clone, Copy, Debug, PartialEq, Eq)]
pub struct Head {
    pub phase: Phase,
    pub plan: Plan,
    pub count: u64,
    pub accepted: u64,
    // the paused marks: bit i is campaign i's
    pub paused: u64,
}

// One campaign, read out of the arrays.
#[derive(Clone, Copy, Debug, PartialEq, Eq)]
pub struct Campaign {
    pub price: u64,
    pub budget: u64,
    pub plays: u64,
    pub turns: u64,
    pub age: u64,
    pub named: u64,
}
