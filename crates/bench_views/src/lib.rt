// A whole day of views and a checksum of what it answers, for a benchmark: a caller pays for one call in another
// language and not for one at each view. Proved safe; no definition says what the checksum is. No part of the product's
// library.
#![tactic(auto)]

use campaigns::{Plan, Terms, View};
use day::{Answer, Day};

// A checksum of one word more.
fn fold(sum: u64, word: u64) -> u64 {
    (sum % 4_294_967_296) * 1_000_003 + word % 4_294_967_296
}

fn fold_answer(sum: u64, answer: Answer) -> u64 {
    match answer {
        Answer::Refused(question) => fold(fold(sum, 64), question),
        Answer::Done => fold(sum, 128),
        Answer::Played { campaign, paid } => fold(fold(sum, campaign), paid),
        Answer::Nobody => fold(sum, 129),
        Answer::Tallied { .. } => fold(sum, 130),
        Answer::Closing {
            takings,
            claim,
            full,
        } => fold(fold(fold(sum, takings), claim), full),
    }
}

// The day with the campaigns whose prices and budgets stand in pairs.
fn filled(start: Day, terms: &[u64]) -> Day {
    let mut day = start;
    for pair in terms.chunks_exact(2) {
        let added = Terms {
            price: pair[0],
            budget: pair[1],
        };
        day = day.add(added).day;
    }
    day
}

#[derive(Clone, Copy)]
pub struct Viewed {
    pub day: Day,
    pub sum: u64,
}

fn shown(start: Day, views: &[u64]) -> Viewed {
    let mut day = start;
    let mut sum: u64 = 0;
    for set in views {
        let outcome = day.view(View { set: *set });
        day = outcome.day;
        sum = fold_answer(sum, outcome.answer);
    }
    Viewed { day, sum }
}

// The same with the counts changed where they stand.
fn shown_in_place(start: Day, views: &[u64]) -> Viewed {
    let mut head = start.head();
    let mut terms = start.terms;
    let mut counts = start.counts;
    let mut sum: u64 = 0;
    for set in views {
        let step = day::in_place::view(head, View { set: *set }, &mut terms, &mut counts);
        head = step.head;
        sum = fold_answer(sum, step.answer);
    }
    Viewed {
        day: Day::from_parts(head, terms, counts),
        sum,
    }
}

// The counts of the campaigns, four for each in turn: they stand in four columns of 64.
fn fold_counts(start: u64, day: Day) -> u64 {
    let mut sum = start;
    for i in 0..256 {
        sum = fold(sum, u64::from(day.counts[i % 4 * 64 + i / 4]));
    }
    sum
}

// A plan opened on the blank state, with its campaigns, and started.
fn started(depth: u64, width: u64, terms: &[u64]) -> Day {
    let opened = Day::blank().open(Plan { depth, width });
    filled(opened.day, terms).start().day
}

// A day of views, each by value.
#[unsafe(no_mangle)]
pub extern "C" fn bench_views_by_value(
    depth: u64,
    width: u64,
    terms: &[u64],
    views: &[u64],
) -> u64 {
    let end = shown(started(depth, width, terms), views);
    fold_counts(end.sum, end.day)
}

// The same in place.
#[unsafe(no_mangle)]
pub extern "C" fn bench_views_in_place(
    depth: u64,
    width: u64,
    terms: &[u64],
    views: &[u64],
) -> u64 {
    let end = shown_in_place(started(depth, width, terms), views);
    fold_counts(end.sum, end.day)
}
