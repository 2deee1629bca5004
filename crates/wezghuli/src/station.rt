// The station's page of a state in lent memory.
ghost use Rattle.std.specs.Prelude.{◌≡◌};
ghost use Rattle.wezghuli.specs.Library.{page_status, page_after, page_length_after};

use encoding::{STATUS_ACCEPTED, given_head};
use page::print_page;

// Prints the page at the front of out, and how many bytes it has to written; a refusal leaves both as they were.
pub fn wezghuli_page<'a>(
    head: &'a [u64; 7],
    terms: &'a [u32; 128],
    counts: &'a [u16; 256],
    out: &'a mut [u8],
    written: &'a mut [u64; 1],
) -> u64
    ensures { (result
        ≡ page_status head.now terms.now counts.now out.old)
        × (out.new
        ≡ page_after head.now terms.now counts.now out.old)
        × (written.new
        ≡ page_length_after head.now terms.now counts.now out.old
        written.old) }
{
    match given_head(head) {
        Ok(given) => match print_page(given, terms, counts, out) {
            Ok(n) => {
                *written = [n as u64];
                STATUS_ACCEPTED
            }
            Err(refusal) => refusal.question,
        },
        Err(status) => status,
    }
}
