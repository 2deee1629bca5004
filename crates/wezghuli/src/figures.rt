// The figures at noon, of a state in lent memory.
ghost use Rattle.std.specs.Prelude.{◌≡◌};
ghost use Rattle.wezghuli.specs.Library.{noon_status, figures_after};

use encoding::{STATUS_ACCEPTED, given_head};
use noon::at_noon;

// Full, the total claim and the floor's figure; the state stays, and a refusal leaves the figures as they were.
pub fn wezghuli_noon<'a>(
    head: &'a [u64; 7],
    terms: &'a [u32; 128],
    counts: &'a [u16; 256],
    figures: &'a mut [u64; 3],
) -> u64
    ensures { (result ≡ noon_status head.now terms.now counts.now)
        × (figures.new ≡ figures_after head.now terms.now counts.now
        figures.old) }
{
    match given_head(head) {
        Ok(given) => match at_noon(given, terms, counts) {
            Ok(told) => {
                *figures = [told.full, told.claim, told.floor];
                STATUS_ACCEPTED
            }
            Err(refusal) => refusal.question,
        },
        Err(status) => status,
    }
}
