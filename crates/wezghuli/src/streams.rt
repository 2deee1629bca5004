// A stream of lines in lent memory: blocks of input and its end.
ghost use Rattle.std.specs.Prelude.{◌≡◌, ◌≢◌, MatchResult};
ghost use Rattle.encoding.specs.Encoding.{head_in, head_words, stream_words};
ghost use Rattle.wezghuli.specs.Library.{lent, stream_status, status_in, feed_after, finish_after};

use campaigns::Head;
use encoding::{
    STATUS_ACCEPTED, STATUS_NO_ROOM, STATUS_NO_STREAM, STREAM_KEPT, given_head, head_words,
    is_stream,
};
use reply::ROOM;
use stream::feed::{Moved, feed_in_place, finish_in_place};

// The head of a state that is lent beside a stream with room for the longest answer, or the status of what the lent
// memory is not.
#[tactic(auto, unfolding(crate::specs::Library::stream_status))]
fn streaming_head(head: &[u64; 7], words: &[u64; 3], room: usize) -> Result<Head, u64>
    ensures { MatchResult result
        (λ given. (stream_status head.now words.now room ≡ 0) × (given ≡ head_in head.now))
        (λ status. (status ≡ stream_status head.now words.now room) × (status ≢ 0)) }
{
    let given = given_head(head)?;
    if !is_stream(words) {
        return Err(STATUS_NO_STREAM);
    }
    if room < ROOM {
        return Err(STATUS_NO_ROOM);
    }
    Ok(given)
}

// What a stream has become, written.
fn store(moved: Moved, head: &mut [u64; 7], words: &mut [u64; 3])
    ensures { (head.new ≡ head_words moved.head)
        × (words.new ≡ stream_words moved.kept moved.consumed moved.written) }
{
    *head = head_words(moved.head);
    *words = [
        moved.kept as u64,
        moved.consumed as u64,
        moved.written as u64,
    ];
}

// Feeds a block of input: each line that ends in it is answered at the front of out, as far as there is room for the
// longest answer, and the rest is kept.
pub fn wezghuli_feed<'a>(
    head: &mut [u64; 7],
    terms: &'a mut [u32; 128],
    counts: &'a mut [u16; 256],
    pending: &mut [u8; 201],
    words: &mut [u64; 3],
    input: &[u8],
    out: &mut [u8],
) -> u64
    ensures value { result ≡ status_in (lent head.old terms.old counts.old
        pending.old words.old out.old) }
    ensures out_after { lent head.new terms.new counts.new pending.new
        words.new out.new ≡ feed_after input.now (lent head.old
        terms.old counts.old pending.old words.old out.old) }
{
    match streaming_head(head, words, out.len()) {
        Ok(before) => {
            let kept = words[STREAM_KEPT] as usize;
            let moved = feed_in_place(before, kept, pending, input, out, terms, counts);
            store(moved, head, words);
            STATUS_ACCEPTED
        }
        Err(status) => status,
    }
}

// The end of input: a last line without byte 10 counts if it has bytes.
pub fn wezghuli_finish<'a>(
    head: &mut [u64; 7],
    terms: &'a mut [u32; 128],
    counts: &'a mut [u16; 256],
    pending: &mut [u8; 201],
    words: &mut [u64; 3],
    out: &mut [u8],
) -> u64
    ensures value { result ≡ status_in (lent head.old terms.old counts.old
        pending.old words.old out.old) }
    ensures out_after { lent head.new terms.new counts.new pending.new
        words.new out.new ≡ finish_after (lent head.old terms.old
        counts.old pending.old words.old out.old) }
{
    match streaming_head(head, words, out.len()) {
        Ok(before) => {
            let kept = words[STREAM_KEPT] as usize;
            let moved = finish_in_place(before, kept, pending, out, terms, counts);
            store(moved, head, words);
            STATUS_ACCEPTED
        }
        Err(status) => status,
    }
}
