// The month in exact figures: both totals of up to 31 day records, and the worst day's place. `report` walks a lent
// slice of records and hands each by value to the methods of `Partial`, which do all the work.
#![tactic(auto)]

pub mod pairs;

ghost use Rattle.std.specs.Prelude.{◌≡◌, ◌≤◌, take};
ghost use Rattle.month.specs.Month.{belongs, report_of};
ghost use Rattle.month.specs.Cited.{InRange, Fits, nothing_yet, invalid, outdoes, after, finish};

use refusal::Refusal;

// How many records a month has at most (question 24).
pub const MAX_RECORDS: usize = 31;

// The greatest figure of a day (question 25).
pub const MAX_FIGURE: u64 = 2_000_000_000;

// A day's takings and its greatest possible takings.
#[derive(Clone, Copy, Debug, Default, PartialEq, Eq)]
pub struct DayRecord {
    pub takings: u64,
    pub greatest: u64,
}

// Both totals, and the worst day's place where a day can be the worst.
#[derive(Clone, Copy, Debug, PartialEq, Eq)]
pub struct Month {
    pub takings: u64,
    pub greatest: u64,
    pub worst: Option<u64>,
}

impl DayRecord {
    // Do these figures belong to a day?
    #[tactic(auto, unfolding(crate::specs::Month::belongs))]
    pub fn belongs(self) -> bool
        ensures { result ≡ belongs self }
    {
        (self.takings <= self.greatest)
            & (self.takings <= MAX_FIGURE)
            & (self.greatest <= MAX_FIGURE)
    }
}

// The worst day so far: its place and its record.
#[derive(Clone, Copy, Debug, PartialEq, Eq)]
pub struct Worst {
    pub place: u64,
    pub day: DayRecord,
}

// Both totals so far.
#[derive(Clone, Copy, Debug, PartialEq, Eq)]
pub struct Totals {
    pub takings: u64,
    pub greatest: u64,
}

// The report so far: the totals, none behind a record that belongs to no day, and the worst day.
#[derive(Clone, Copy, Debug, PartialEq, Eq)]
pub struct Partial {
    pub totals: Option<Totals>,
    pub worst: Option<Worst>,
}

impl Partial {
    // Before the first record.
    pub fn new() -> Partial
        ensures { result ≡ nothing_yet }
    {
        Partial {
            totals: Some(Totals {
                takings: 0,
                greatest: 0,
            }),
            worst: None,
        }
    }

    // Behind a record that belongs to no day.
    pub fn invalid() -> Partial
        ensures { result ≡ invalid }
    {
        Partial {
            totals: None,
            worst: None,
        }
    }

    // Is this day worse than each day before it? On equality it is not. Only figures in their range are multiplied.
    #[tactic(auto, unfolding(crate::specs::Cited::outdoes, crate::specs::Month::can_be_worst))]
    pub fn outdoes(self, day: DayRecord) -> bool
        requires { InRange self day }
        ensures { result ≡ outdoes self day }
    {
        if day.greatest == 0 {
            return false;
        }
        match self.worst {
            Some(worst) => day.takings * worst.day.greatest < worst.day.takings * day.greatest,
            None => true,
        }
    }

    // With one record more. Once a record belonged to no day, none is added.
    pub fn with(self, day: DayRecord, place: u64) -> Partial
        requires { Fits self place }
        ensures { result ≡ after self day place }
    {
        let Some(totals) = self.totals else {
            return Partial::invalid();
        };
        if !day.belongs() {
            return Partial::invalid();
        }
        let worst = if self.outdoes(day) {
            Some(Worst { place, day })
        } else {
            self.worst
        };
        Partial {
            totals: Some(Totals {
                takings: totals.takings + day.takings,
                greatest: totals.greatest + day.greatest,
            }),
            worst,
        }
    }

    // Behind the last record.
    pub fn done(self) -> Result<Month, Refusal>
        ensures { result ≡ finish self }
    {
        let totals = self.totals.ok_or(Refusal::NO_DAY)?;
        Ok(Month {
            takings: totals.takings,
            greatest: totals.greatest,
            worst: self.worst.map(|worst| worst.place),
        })
    }
}

// The report of any records.
pub fn report(days: &[DayRecord]) -> Result<Month, Refusal>
    ensures { result ≡ report_of days.now }
{
    if days.len() > MAX_RECORDS {
        return Err(Refusal::MANY_DAYS);
    }
    let mut so_far = Partial::new();
    for (place, day) in days.iter().enumerate() {
        so_far = so_far.with(*day, place as u64);
    }
    so_far.done()
}

// The same of the first `count` records of an array, for callers that have no slice of records.
pub fn report_first(list: [DayRecord; 32], count: usize) -> Result<Month, Refusal>
    requires { count ≤ 32 }
    ensures { result ≡ report_of (take count list) }
{
    report(&list[..count])
}
