// A stream of lines in lent memory: blocks of input and its end.
ghost use Rattle.std.specs.Prelude.{◌≡◌};
ghost use Rattle.wezghuli.specs.Library.{lent, status_in, feed_after, finish_after};

// Feeds a block of input: each line that ends in it is answered at the front of out, as far as there is room for the
// longest answer, and the rest is kept.
#[unsafe(no_mangle)]
pub extern "C" fn wezghuli_feed<'a>(
    head: &mut [u64; 7],
    terms: &'a mut [u32; 128],
    counts: &'a mut [u16; 256],
    pending: &mut [u8; 201],
    words: &mut [u64; 3],
    input: &[u8],
    out: &mut [u8],
) -> u64
    ensures value { result ≡ status_in (lent head.old terms.old counts.old
        pending.old words.old out.old) }
    ensures out_after { lent head.new terms.new counts.new pending.new
        words.new out.new ≡ feed_after input.now (lent head.old
        terms.old counts.old pending.old words.old out.old) }
{
    wezghuli::streams::wezghuli_feed(head, terms, counts, pending, words, input, out)
}

// The end of input: a last line without byte 10 counts if it has bytes.
#[unsafe(no_mangle)]
pub extern "C" fn wezghuli_finish<'a>(
    head: &mut [u64; 7],
    terms: &'a mut [u32; 128],
    counts: &'a mut [u16; 256],
    pending: &mut [u8; 201],
    words: &mut [u64; 3],
    out: &mut [u8],
) -> u64
    ensures value { result ≡ status_in (lent head.old terms.old counts.old
        pending.old words.old out.old) }
    ensures out_after { lent head.new terms.new counts.new pending.new
        words.new out.new ≡ finish_after (lent head.old terms.old
        counts.old pending.old words.old out.old) }
{
    wezghuli::streams::wezghuli_finish(head, terms, counts, pending, words, out)
}
