// The blank state and the eight operations, on a state in lent memory.
ghost use Rattle.std.specs.Prelude.{◌≡◌, true, false};
ghost use Rattle.day.specs.Day.{blank};
ghost use Rattle.day.specs.Calls.{number};
ghost use Rattle.day.specs.InPlace.{asked};
ghost use Rattle.day.specs.Calls.Call.{open_plan, add_campaign, start_day, show_view, ask_tally, close_day};
ghost use Rattle.day.specs.Calls.Call.{mark_campaign};
ghost use Rattle.day.specs.Day.{head_of};
ghost use Rattle.encoding.specs.Encoding.{head_words, answer_after};
ghost use Rattle.wezghuli.specs.Library.{memory, memory_after, status};

use campaigns::{Plan, Terms, View};
use day::ops::execute;
use day::{Call, Step};
use encoding::{answer_after, given_head, head_words};

// The blank state: Closed, depth 1, width 1, no campaigns.
pub fn wezghuli_blank<'a>(
    head: &'a mut [u64; 7],
    terms: &'a mut [u32; 128],
    counts: &'a mut [u16; 256],
)
    ensures { (head.new ≡ head_words (head_of blank))
        × (terms.new ≡ blank.terms) × (counts.new ≡ blank.counts) }
{
    *head = head_words(day::blank());
    *terms = [0; 128];
    *counts = [0; 256];
}

// The head and the answer of a step, written; its status. A refusal leaves the answer as it was.
fn store<'a>(step: Step, head: &'a mut [u64; 7], answer: &'a mut [u64; 5]) -> u64
    ensures { (result ≡ number step.answer) × (head.new ≡ head_words step.head)
        × (answer.new ≡ answer_after step.answer answer.old) }
{
    *head = head_words(step.head);
    *answer = answer_after(step.answer, *answer);
    step.answer.number()
}

// A call of the state in lent memory, its outcome stored there; words that are no head leave everything as it was.
fn answer_call<'a>(
    head: &'a mut [u64; 7],
    terms: &'a mut [u32; 128],
    counts: &'a mut [u16; 256],
    ask: Call,
    answer: &'a mut [u64; 5],
) -> u64
    ensures value { result ≡ status (asked ask)
        (memory head.old terms.old counts.old answer.old) }
    ensures answer_after { memory head.new terms.new counts.new answer.new
        ≡ memory_after (asked ask)
        (memory head.old terms.old counts.old answer.old) }
{
    match given_head(head) {
        Ok(before) => {
            let step = execute(before, ask, terms, counts);
            store(step, head, answer)
        }
        Err(status) => status,
    }
}

// Opens a plan, with no campaigns, in Filling.
pub fn wezghuli_open<'a>(
    head: &'a mut [u64; 7],
    terms: &'a mut [u32; 128],
    counts: &'a mut [u16; 256],
    depth: u64,
    width: u64,
    answer: &'a mut [u64; 5],
) -> u64
    ensures value { result ≡ status (open_plan (record { depth = depth; width = width }))
        (memory head.old terms.old counts.old answer.old) }
    ensures answer_after { memory head.new terms.new counts.new answer.new
        ≡ memory_after (open_plan (record { depth = depth; width = width }))
        (memory head.old terms.old counts.old answer.old) }
{
    answer_call(
        head,
        terms,
        counts,
        Call::Open(Plan { depth, width }),
        answer,
    )
}

// Adds a campaign, with zero counts.
pub fn wezghuli_add<'a>(
    head: &'a mut [u64; 7],
    terms: &'a mut [u32; 128],
    counts: &'a mut [u16; 256],
    price: u64,
    budget: u64,
    answer: &'a mut [u64; 5],
) -> u64
    ensures value { result ≡ status (add_campaign (record { price = price; budget = budget }))
        (memory head.old terms.old counts.old answer.old) }
    ensures answer_after { memory head.new terms.new counts.new answer.new
        ≡ memory_after (add_campaign (record { price = price; budget = budget }))
        (memory head.old terms.old counts.old answer.old) }
{
    answer_call(
        head,
        terms,
        counts,
        Call::Add(Terms { price, budget }),
        answer,
    )
}

// Starts the day: no campaign is added from now on.
pub fn wezghuli_start<'a>(
    head: &'a mut [u64; 7],
    terms: &'a mut [u32; 128],
    counts: &'a mut [u16; 256],
    answer: &'a mut [u64; 5],
) -> u64
    ensures value { result ≡ status start_day
        (memory head.old terms.old counts.old answer.old) }
    ensures answer_after { memory head.new terms.new counts.new answer.new
        ≡ memory_after start_day
        (memory head.old terms.old counts.old answer.old) }
{
    answer_call(head, terms, counts, Call::Start, answer)
}

// Shows a view, bit i of the set naming campaign i: who plays, and what is paid.
pub fn wezghuli_view<'a>(
    head: &'a mut [u64; 7],
    terms: &'a mut [u32; 128],
    counts: &'a mut [u16; 256],
    set: u64,
    answer: &'a mut [u64; 5],
) -> u64
    ensures value { result ≡ status (show_view (record { set = set }))
        (memory head.old terms.old counts.old answer.old) }
    ensures answer_after { memory head.new terms.new counts.new answer.new
        ≡ memory_after (show_view (record { set = set }))
        (memory head.old terms.old counts.old answer.old) }
{
    answer_call(head, terms, counts, Call::Show(View { set }), answer)
}

// The four counts of a campaign; the state stays.
pub fn wezghuli_tally<'a>(
    head: &'a mut [u64; 7],
    terms: &'a mut [u32; 128],
    counts: &'a mut [u16; 256],
    campaign: u64,
    answer: &'a mut [u64; 5],
) -> u64
    ensures value { result ≡ status (ask_tally campaign)
        (memory head.old terms.old counts.old answer.old) }
    ensures answer_after { memory head.new terms.new counts.new answer.new
        ≡ memory_after (ask_tally campaign)
        (memory head.old terms.old counts.old answer.old) }
{
    answer_call(head, terms, counts, Call::Tally(campaign), answer)
}

// Closes the day with its takings, total claim and full.
pub fn wezghuli_close<'a>(
    head: &'a mut [u64; 7],
    terms: &'a mut [u32; 128],
    counts: &'a mut [u16; 256],
    answer: &'a mut [u64; 5],
) -> u64
    ensures value { result ≡ status close_day
        (memory head.old terms.old counts.old answer.old) }
    ensures answer_after { memory head.new terms.new counts.new answer.new
        ≡ memory_after close_day
        (memory head.old terms.old counts.old answer.old) }
{
    answer_call(head, terms, counts, Call::Close, answer)
}

// Pauses a campaign: it is as one that no view names, until it is resumed.
pub fn wezghuli_pause<'a>(
    head: &'a mut [u64; 7],
    terms: &'a mut [u32; 128],
    counts: &'a mut [u16; 256],
    campaign: u64,
    answer: &'a mut [u64; 5],
) -> u64
    ensures value { result ≡ status (mark_campaign true campaign)
        (memory head.old terms.old counts.old answer.old) }
    ensures answer_after { memory head.new terms.new counts.new answer.new
        ≡ memory_after (mark_campaign true campaign)
        (memory head.old terms.old counts.old answer.old) }
{
    answer_call(head, terms, counts, Call::Pause(campaign), answer)
}

// Resumes a campaign.
pub fn wezghuli_resume<'a>(
    head: &'a mut [u64; 7],
    terms: &'a mut [u32; 128],
    counts: &'a mut [u16; 256],
    campaign: u64,
    answer: &'a mut [u64; 5],
) -> u64
    ensures value { result ≡ status (mark_campaign false campaign)
        (memory head.old terms.old counts.old answer.old) }
    ensures answer_after { memory head.new terms.new counts.new answer.new
        ≡ memory_after (mark_campaign false campaign)
        (memory head.old terms.old counts.old answer.old) }
{
    answer_call(head, terms, counts, Call::Resume(campaign), answer)
}
