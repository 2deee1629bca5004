// The blank state and the eight operations, on a state in lent memory.
ghost use Rattle.std.specs.Prelude.{◌≡◌, true, false};
ghost use Rattle.day.specs.Day.{blank};
ghost use Rattle.day.specs.Calls.Call.{open_plan, add_campaign, start_day, show_view, ask_tally, close_day};
ghost use Rattle.day.specs.Calls.Call.{mark_campaign};
ghost use Rattle.day.specs.Day.{head_of};
ghost use Rattle.encoding.specs.Encoding.{head_words, answer_after};
ghost use Rattle.wezghuli.specs.Library.{memory, memory_after, status};

// The blank state: Closed, depth 1, width 1, no campaigns.
#[unsafe(no_mangle)]
pub extern "C" fn wezghuli_blank<'a>(
    head: &'a mut [u64; 7],
    terms: &'a mut [u32; 128],
    counts: &'a mut [u16; 256],
)
    ensures { (head.new ≡ head_words (head_of blank))
        × (terms.new ≡ blank.terms) × (counts.new ≡ blank.counts) }
{
    wezghuli::calls::wezghuli_blank(head, terms, counts);
}

// Opens a plan, with no campaigns, in Filling.
#[unsafe(no_mangle)]
pub extern "C" fn wezghuli_open<'a>(
    head: &'a mut [u64; 7],
    terms: &'a mut [u32; 128],
    counts: &'a mut [u16; 256],
    depth: u64,
    width: u64,
    answer: &'a mut [u64; 5],
) -> u64
    ensures value { result ≡ status (open_plan (record { depth = depth; width = width }))
        (memory head.old terms.old counts.old answer.old) }
    ensures answer_after { memory head.new terms.new counts.new answer.new
        ≡ memory_after (open_plan (record { depth = depth; width = width }))
        (memory head.old terms.old counts.old answer.old) }
{
    wezghuli::calls::wezghuli_open(head, terms, counts, depth, width, answer)
}

// Adds a campaign, with zero counts.
#[unsafe(no_mangle)]
pub extern "C" fn wezghuli_add<'a>(
    head: &'a mut [u64; 7],
    terms: &'a mut [u32; 128],
    counts: &'a mut [u16; 256],
    price: u64,
    budget: u64,
    answer: &'a mut [u64; 5],
) -> u64
    ensures value { result ≡ status (add_campaign (record { price = price; budget = budget }))
        (memory head.old terms.old counts.old answer.old) }
    ensures answer_after { memory head.new terms.new counts.new answer.new
        ≡ memory_after (add_campaign (record { price = price; budget = budget }))
        (memory head.old terms.old counts.old answer.old) }
{
    wezghuli::calls::wezghuli_add(head, terms, counts, price, budget, answer)
}

// Starts the day: no campaign is added from now on.
#[unsafe(no_mangle)]
pub extern "C" fn wezghuli_start<'a>(
    head: &'a mut [u64; 7],
    terms: &'a mut [u32; 128],
    counts: &'a mut [u16; 256],
    answer: &'a mut [u64; 5],
) -> u64
    ensures value { result ≡ status start_day
        (memory head.old terms.old counts.old answer.old) }
    ensures answer_after { memory head.new terms.new counts.new answer.new
        ≡ memory_after start_day
        (memory head.old terms.old counts.old answer.old) }
{
    wezghuli::calls::wezghuli_start(head, terms, counts, answer)
}

// Shows a view, bit i of the set naming campaign i: who plays, and what is paid.
#[unsafe(no_mangle)]
pub extern "C" fn wezghuli_view<'a>(
    head: &'a mut [u64; 7],
    terms: &'a mut [u32; 128],
    counts: &'a mut [u16; 256],
    set: u64,
    answer: &'a mut [u64; 5],
) -> u64
    ensures value { result ≡ status (show_view (record { set = set }))
        (memory head.old terms.old counts.old answer.old) }
    ensures answer_after { memory head.new terms.new counts.new answer.new
        ≡ memory_after (show_view (record { set = set }))
        (memory head.old terms.old counts.old answer.old) }
{
    wezghuli::calls::wezghuli_view(head, terms, counts, set, answer)
}

// The four counts of a campaign; the state stays.
#[unsafe(no_mangle)]
pub extern "C" fn wezghuli_tally<'a>(
    head: &'a mut [u64; 7],
    terms: &'a mut [u32; 128],
    counts: &'a mut [u16; 256],
    campaign: u64,
    answer: &'a mut [u64; 5],
) -> u64
    ensures value { result ≡ status (ask_tally campaign)
        (memory head.old terms.old counts.old answer.old) }
    ensures answer_after { memory head.new terms.new counts.new answer.new
        ≡ memory_after (ask_tally campaign)
        (memory head.old terms.old counts.old answer.old) }
{
    wezghuli::calls::wezghuli_tally(head, terms, counts, campaign, answer)
}

// Closes the day with its takings, total claim and full.
#[unsafe(no_mangle)]
pub extern "C" fn wezghuli_close<'a>(
    head: &'a mut [u64; 7],
    terms: &'a mut [u32; 128],
    counts: &'a mut [u16; 256],
    answer: &'a mut [u64; 5],
) -> u64
    ensures value { result ≡ status close_day
        (memory head.old terms.old counts.old answer.old) }
    ensures answer_after { memory head.new terms.new counts.new answer.new
        ≡ memory_after close_day
        (memory head.old terms.old counts.old answer.old) }
{
    wezghuli::calls::wezghuli_close(head, terms, counts, answer)
}

// Pauses a campaign: it is as one that no view names, until it is resumed.
#[unsafe(no_mangle)]
pub extern "C" fn wezghuli_pause<'a>(
    head: &'a mut [u64; 7],
    terms: &'a mut [u32; 128],
    counts: &'a mut [u16; 256],
    campaign: u64,
    answer: &'a mut [u64; 5],
) -> u64
    ensures value { result ≡ status (mark_campaign true campaign)
        (memory head.old terms.old counts.old answer.old) }
    ensures answer_after { memory head.new terms.new counts.new answer.new
        ≡ memory_after (mark_campaign true campaign)
        (memory head.old terms.old counts.old answer.old) }
{
    wezghuli::calls::wezghuli_pause(head, terms, counts, campaign, answer)
}

// Resumes a campaign.
#[unsafe(no_mangle)]
pub extern "C" fn wezghuli_resume<'a>(
    head: &'a mut [u64; 7],
    terms: &'a mut [u32; 128],
    counts: &'a mut [u16; 256],
    campaign: u64,
    answer: &'a mut [u64; 5],
) -> u64
    ensures value { result ≡ status (mark_campaign false campaign)
        (memory head.old terms.old counts.old answer.old) }
    ensures answer_after { memory head.new terms.new counts.new answer.new
        ≡ memory_after (mark_campaign false campaign)
        (memory head.old terms.old counts.old answer.old) }
{
    wezghuli::calls::wezghuli_resume(head, terms, counts, campaign, answer)
}
