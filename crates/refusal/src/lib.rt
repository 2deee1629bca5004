// Why an operation is refused: the error of every operation that can fail.
#![tactic(auto)]

// The number of the question that failed. The documents know a question by its number alone, and lines, statuses and
// the statements of the specs say that number; the constants name those that the code gives.
#[derive(Clone, Copy, Debug, PartialEq, Eq)]
pub struct Refusal {
    pub question: u64,
}

impl Refusal {
    // The state is not sound.
    pub const UNSOUND: Refusal = Refusal { question: 1 };

    // A plan is opened while a day is filled or runs.
    pub const NOT_CLOSED: Refusal = Refusal { question: 2 };

    pub const DEPTH: Refusal = Refusal { question: 3 };

    pub const WIDTH: Refusal = Refusal { question: 4 };

    // Width to the power of depth is above its limit.
    pub const POWER: Refusal = Refusal { question: 5 };

    pub const NOT_FILLING: Refusal = Refusal { question: 6 };

    // The plan has as many campaigns as it may have.
    pub const CAMPAIGNS: Refusal = Refusal { question: 7 };

    pub const PRICE: Refusal = Refusal { question: 8 };

    pub const BUDGET: Refusal = Refusal { question: 9 };

    // The budgets together are above their limit.
    pub const BUDGETS: Refusal = Refusal { question: 10 };

    pub const NOT_RUNNING: Refusal = Refusal { question: 11 };

    // The day has as many views as it may have.
    pub const VIEWS: Refusal = Refusal { question: 12 };

    // A view names a campaign outside the plan.
    pub const OUTSIDE: Refusal = Refusal { question: 13 };

    // A view names more campaigns than the width.
    pub const NAMES: Refusal = Refusal { question: 14 };

    // The plan has no campaign of this number.
    pub const NO_CAMPAIGN: Refusal = Refusal { question: 15 };

    pub const LONG_LINE: Refusal = Refusal { question: 16 };

    // The line is of no form, or a number is out of its range.
    pub const NO_FORM: Refusal = Refusal { question: 17 };

    // Too little memory is lent.
    pub const NO_ROOM: Refusal = Refusal { question: 18 };

    // More views are handed to the search than it takes.
    pub const MANY_VIEWS: Refusal = Refusal { question: 19 };

    // A month has more records than days.
    pub const MANY_DAYS: Refusal = Refusal { question: 24 };

    // A record's figures belong to no day.
    pub const NO_DAY: Refusal = Refusal { question: 25 };
}
