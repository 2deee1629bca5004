// Reading along a line: each function is given what is left of the line, and gives what is left behind what it read.
ghost use Rattle.std.specs.Prelude.{◌≡◌, ◌+◌, ◌*◌, ◌<◌, ◌≤◌, leb, get_or, Err};
ghost use Rattle.std.specs.Option.{ok_or};
ghost use Rattle.refusal.specs.Refusal.{refusal};
ghost use Rattle.lines.specs.Form.{names_slot, slot_max};
ghost use Rattle.lines.specs.Reading.{some, numeral_at, digits, ranged, slot_at, ended_or};
ghost use Rattle.lines.specs.Cited.{found, match_rest, stripped};

use crate::Record;
use crate::slots::{Lettered, MAX_INPUT, in_slot, slot_max};

// Whether n * 10 + digit is at most max. Up to the numbers of an input line one test is enough.
#[inline(always)]
fn has_room(n: u64, digit: u64, max: u64) -> bool
    requires { (n ≤ max) × (digit < 10) }
    ensures { result ≡ leb (n * 10 + digit) max }
{
    if max <= MAX_INPUT {
        return n * 10 + digit <= max;
    }
    if n < max / 10 {
        return true;
    }
    (n == max / 10) & (digit <= max % 10)
}

// The numeral whose first digits, of the value first, end where s begins. A number that leaves the range ends the loop
// by a jump: what is left behind the numeral waits for no number.
#[inline(always)]
fn more_digits(s: &[u8], first: u64, slot: u8) -> Option<(u64, &[u8])>
    requires { (1 ≤ first) × (first ≤ slot_max slot) }
    ensures { found result ≡ ranged slot (digits first s.now) }
{
    let mut number = first;
    let mut rest = s;
    while let [digit @ b'0'..=b'9', after @ ..] = rest {
        let digit = u64::from(digit - b'0');
        if !has_room(number, digit, slot_max(slot)) {
            return None;
        }
        number = number * 10 + digit;
        rest = after;
    }
    Some((number, rest))
}

// The numeral at the front, where its number is in the range of the slot of this letter. 0 has no digit behind it.
// Inlined, as those above are, since the letter is known at each call.
#[inline(always)]
fn number(s: &[u8], slot: u8) -> Option<(u64, &[u8])>
    ensures { found result ≡ ranged slot (numeral_at s.now) }
{
    match s {
        [b'0', rest @ ..] if in_slot(slot, 0) => Some((0, rest)),
        [digit @ b'1'..=b'9', rest @ ..] => more_digits(rest, u64::from(digit - b'0'), slot),
        _ => None,
    }
}

// The names of a view as a set: they rise strictly, each with a space before it.
fn names(s: &[u8]) -> Option<(u64, &[u8])>
    ensures { found result ≡ slot_at names_slot (some s.now) }
{
    let mut set: u64 = 0;
    let mut rest = s;
    while let [b' ', named @ ..] = rest {
        let (name, after) = number(named, b'C')?;
        let bit = 1 << name;
        if bit <= set {
            return None;
        }
        set += bit;
        rest = after;
    }
    Some((set, rest))
}

// What is left of the line behind the word. Not by `strip_prefix`, which is a call for each word, some 5 ns: here the
// word is known where it is inlined.
#[inline(always)]
fn behind<'a>(s: &'a [u8], word: &[u8]) -> Option<&'a [u8]>
    ensures { match_rest result ≡ stripped word.now (some s.now) }
{
    if s.len() < word.len() {
        return None;
    }
    for (i, b) in word.iter().enumerate() {
        if s[i] != *b {
            return None;
        }
    }
    Some(&s[word.len()..])
}

// The word at the front, and the slot behind it. s is what is left of the line, or None where what was looked for
// before is not there. Inlined, since the word and the slot are known at each call.
#[inline(always)]
pub fn field<'a, S: Lettered>(s: Option<&'a [u8]>, word: &[u8], slot: S) -> Option<(u64, &'a [u8])>
    ensures { found result ≡ slot_at (S.letter slot) (stripped word.now (match_rest s.entry)) }
{
    let letter = slot.letter();
    let s = behind(s?, word)?;
    if letter == b'S' {
        return names(s);
    }
    number(s, letter)
}

// The record r, where the word is all that is left; s as above. Not by `==`, which is a call for each line's end.
#[inline(always)]
pub fn ended(s: Option<&[u8]>, word: &[u8], r: Record) -> Option<Record>
    ensures { ok_or result (refusal 17) ≡ ended_or (Err (refusal 17)) (stripped word.now (match_rest s.entry)) r }
{
    let s = s?;
    let rest = behind(s, word)?;
    if rest.is_empty() { Some(r) } else { None }
}

// The byte at the place i, or 0 behind the line.
pub fn byte(s: &[u8], i: usize) -> u8
    ensures { result ≡ get_or s.now i 0 }
{
    s.get(i).copied().unwrap_or(0)
}
