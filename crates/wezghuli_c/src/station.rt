// The station's page of a state in lent memory.
ghost use Rattle.std.specs.Prelude.{◌≡◌};
ghost use Rattle.wezghuli.specs.Library.{page_status, page_after, page_length_after};

// Prints the page at the front of out, and how many bytes it has to written; a refusal leaves both as they were.
#[unsafe(no_mangle)]
pub extern "C" fn wezghuli_page<'a>(
    head: &'a [u64; 7],
    terms: &'a [u32; 128],
    counts: &'a [u16; 256],
    out: &'a mut [u8],
    written: &'a mut [u64; 1],
) -> u64
    ensures { (result
        ≡ page_status head.now terms.now counts.now out.old)
        × (out.new
        ≡ page_after head.now terms.now counts.now out.old)
        × (written.new
        ≡ page_length_after head.now terms.now counts.now out.old
        written.old) }
{
    wezghuli::station::wezghuli_page(head, terms, counts, out, written)
}
