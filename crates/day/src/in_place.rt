// The eight operations, each of any state whose arrays are lent.
ghost use Rattle.std.specs.Prelude.{◌≡◌, true, false};
ghost use Rattle.day.specs.Day.{state_of};
ghost use Rattle.day.specs.Calls.{call};
ghost use Rattle.day.specs.Calls.Call.{open_plan, add_campaign, start_day, show_view, ask_tally, close_day};
ghost use Rattle.day.specs.Calls.Call.{mark_campaign};
ghost use Rattle.day.specs.InPlace.{outcome_of};

use crate::ops::execute;
use crate::{Call, Step};
use campaigns::{Head, Plan, Terms, View};

pub fn open<'a>(
    head: Head,
    plan: Plan,
    terms: &'a mut [u32; 128],
    counts: &'a mut [u16; 256],
) -> Step
    ensures { outcome_of result terms.new counts.new
        ≡ call (state_of head terms.old counts.old) (open_plan plan) }
{
    execute(head, Call::Open(plan), terms, counts)
}

pub fn add<'a>(head: Head, t: Terms, terms: &'a mut [u32; 128], counts: &'a mut [u16; 256]) -> Step
    ensures { outcome_of result terms.new counts.new
        ≡ call (state_of head terms.old counts.old) (add_campaign t) }
{
    execute(head, Call::Add(t), terms, counts)
}

pub fn start<'a>(head: Head, terms: &'a mut [u32; 128], counts: &'a mut [u16; 256]) -> Step
    ensures { outcome_of result terms.new counts.new
        ≡ call (state_of head terms.old counts.old) start_day }
{
    execute(head, Call::Start, terms, counts)
}

pub fn view<'a>(
    head: Head,
    view: View,
    terms: &'a mut [u32; 128],
    counts: &'a mut [u16; 256],
) -> Step
    ensures { outcome_of result terms.new counts.new
        ≡ call (state_of head terms.old counts.old) (show_view view) }
{
    execute(head, Call::Show(view), terms, counts)
}

pub fn tally<'a>(
    head: Head,
    campaign: u64,
    terms: &'a mut [u32; 128],
    counts: &'a mut [u16; 256],
) -> Step
    ensures { outcome_of result terms.new counts.new
        ≡ call (state_of head terms.old counts.old) (ask_tally campaign) }
{
    execute(head, Call::Tally(campaign), terms, counts)
}

pub fn close<'a>(head: Head, terms: &'a mut [u32; 128], counts: &'a mut [u16; 256]) -> Step
    ensures { outcome_of result terms.new counts.new
        ≡ call (state_of head terms.old counts.old) close_day }
{
    execute(head, Call::Close, terms, counts)
}

pub fn pause<'a>(
    head: Head,
    campaign: u64,
    terms: &'a mut [u32; 128],
    counts: &'a mut [u16; 256],
) -> Step
    ensures { outcome_of result terms.new counts.new
        ≡ call (state_of head terms.old counts.old) (mark_campaign true campaign) }
{
    execute(head, Call::Pause(campaign), terms, counts)
}

pub fn resume<'a>(
    head: Head,
    campaign: u64,
    terms: &'a mut [u32; 128],
    counts: &'a mut [u16; 256],
) -> Step
    ensures { outcome_of result terms.new counts.new
        ≡ call (state_of head terms.old counts.old) (mark_campaign false campaign) }
{
    execute(head, Call::Resume(campaign), terms, counts)
}
