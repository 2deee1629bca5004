// Reading and writing a line, a record crossing as six words.
ghost use Rattle.std.specs.Prelude.{◌≡◌};
ghost use Rattle.wezghuli.specs.Library.{read_status, record_after, write_status, line_after, length_after};

use encoding::{STATUS_ACCEPTED, STATUS_NO_FORM, is_form, record_of, record_words};

// Reads a line, without its byte 10, into a record; a refusal leaves the record as it was.
pub fn wezghuli_read_line<'a>(line: &'a [u8], words: &'a mut [u64; 6]) -> u64
    ensures { (result ≡ read_status line.now)
        × (words.new ≡ record_after line.now words.old) }
{
    match lines::read_line(line) {
        Ok(r) => {
            *words = record_words(r);
            STATUS_ACCEPTED
        }
        Err(refusal) => refusal.question,
    }
}

// Writes a record's line, with its byte 10, at the front of out, and how many bytes it has to written; a refusal leaves
// both as they were.
pub fn wezghuli_write_line<'a>(
    words: &'a [u64; 6],
    out: &'a mut [u8],
    written: &'a mut [u64; 1],
) -> u64
    ensures { (result ≡ write_status words.now out.old)
        × (out.new ≡ line_after words.now out.old)
        × (written.new ≡ length_after words.now out.old written.old) }
{
    if !is_form(words) {
        return STATUS_NO_FORM;
    }
    match writer::write_line(record_of(words), out) {
        Ok(n) => {
            *written = [n as u64];
            STATUS_ACCEPTED
        }
        Err(refusal) => refusal.question,
    }
}
