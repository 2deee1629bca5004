// Words, numerals and names: how long they are, and putting them into a lent buffer.
#![tactic(auto)]

ghost use Rattle.std.specs.Prelude.{◌≡◌, ◌∷◌, ◌++◌, ◌+◌, ◌%◌, ◌<◌, ◌≤◌, length, None};
ghost use Rattle.buffer.specs.Buffer.{Put, RoomFor};
ghost use Rattle.lines.specs.Limits.{set_bits, max_names};
ghost use Rattle.lines.specs.Numeral.{numeral};
ghost use Rattle.lines.specs.Form.{names_text, slot_text};
ghost use Rattle.print.specs.Cited.{max_counted, counted};

use lines::slots::{Lettered, in_slot};
use sets::Members;

// The length of a line as far as its slots are counted, and a number that is outside its slot's range, where there is
// one.
#[derive(Clone, Copy)]
pub struct Size {
    pub len: usize,
    pub outside: Option<u64>,
}

// How many digits the numeral of n has, four a call: most numbers of a line are short, where tests are faster than
// ilog10.
fn places(n: u64) -> usize
    ensures { result ≡ length (numeral n) }
{
    match n {
        0..=9 => 1,
        10..=99 => 2,
        100..=999 => 3,
        1000..=9999 => 4,
        _ => 4 + places(n / 10000),
    }
}

// How many bytes the names of a set take: 3 for each, and 2 for a name below 10.
#[tactic(auto, using(crate::proofs::Lengths::names_size, crate::proofs::Lengths::size_most))]
fn names_len(set: u64) -> usize
    ensures { (result ≡ length (names_text set_bits set)) × (result ≤ max_names) }
{
    let all = sets::count(set);
    let short = sets::count(set % 1024);
    (3 * all - short) as usize
}

// How many bytes the number n takes in the slot of this letter.
fn slot_len(slot: u8, n: u64) -> usize
    ensures { (result ≡ length (slot_text slot n)) × (result ≤ max_names) }
{
    if slot == b'S' {
        return names_len(n);
    }
    places(n)
}

impl Size {
    // A line of a form's own bytes.
    pub fn fixed(len: usize) -> Size
        ensures { (result.len ≡ len) × (result.outside ≡ None) }
    {
        Size { len, outside: None }
    }

    // One slot more, in front of those that are counted.
    pub fn slot<S: Lettered>(self, slot: S, n: u64) -> Size
        requires { self.len ≤ max_counted }
        ensures counted { result ≡ counted self (S.letter slot) n }
        ensures most { result.len ≤ self.len + max_names }
    {
        let letter = slot.letter();
        let len = slot_len(letter, n) + self.len;
        let outside = (!in_slot(letter, n)).then_some(n).or(self.outside);
        Size { len, outside }
    }
}

// A line is put from its last byte to its first: so come the digits of a numeral, and they need not be counted again.
// Each function is given the place where its bytes end, and gives the place where they begin; the room is the caller's.

// The word that ends at the place to. A loop is faster than copy_from_slice, which asks whether the two overlap.
pub fn put(out: &mut [u8], to: usize, word: &[u8]) -> usize
    requires { RoomFor out.old to (length word.now) }
    ensures { Put out.old out.new result to word.now }
{
    let at = to - word.len();
    for i in 0..word.len() {
        out[at + i] = word[i];
    }
    at
}

// The last digit of n.
fn digit(n: u64) -> u8
    ensures { result ≡ 48 + n % 10 }
{
    b'0' + (n % 10) as u8
}

// The numeral of n that ends at the place to, two digits at a time.
#[tactic(auto, using(crate::proofs::Lengths::numeral_some, crate::proofs::Digits::numeral_two))]
pub fn put_number(out: &mut [u8], to: usize, n: u64) -> usize
    requires { RoomFor out.old to (length (numeral n)) }
    ensures { Put out.old out.new result to (numeral n) }
{
    let mut i = to;
    let mut rest = n;
    while rest > 99 {
        i -= 2;
        let pair = rest % 100;
        out[i + 1] = digit(pair);
        out[i] = digit(pair / 10);
        rest /= 100;
    }
    i -= 1;
    out[i] = digit(rest);
    if rest < 10 {
        return i;
    }
    out[i - 1] = digit(rest / 10);
    i - 1
}

// A name of one or two digits at the place at, with a space before it.
fn put_name(out: &mut [u8], at: usize, name: u64) -> usize
    requires { (name < set_bits) × (at + length (32 ∷ numeral name) ≤ length out.old) }
    ensures { Put out.old out.new at result (32 ∷ numeral name) }
{
    out[at] = b' ';
    if name < 10 {
        out[at + 1] = digit(name);
        return at + 2;
    }
    out[at + 1] = digit(name / 10);
    out[at + 2] = digit(name);
    at + 3
}

// The names of a set at the place at, by the walk of the set: from its least member to the next.
fn put_names(out: &mut [u8], at: usize, set: u64) -> usize
    requires { at + length (names_text set_bits set) ≤ length out.old }
    ensures { Put out.old out.new at result (names_text set_bits set) }
{
    let mut to = at;
    for name in Members(set) {
        to = put_name(out, to, name);
    }
    to
}

// The number n as the slot of this letter reads, ending at the place to.
fn put_lettered(out: &mut [u8], to: usize, slot: u8, n: u64) -> usize
    requires { RoomFor out.old to (length (slot_text slot n)) }
    ensures { Put out.old out.new result to (slot_text slot n) }
{
    if slot == b'S' {
        let at = to - names_len(n);
        put_names(out, at, n);
        return at;
    }
    put_number(out, to, n)
}

// The number n as its slot reads, ending at the place to.
pub fn put_slot<S: Lettered>(out: &mut [u8], to: usize, slot: S, n: u64) -> usize
    requires { RoomFor out.old to (length (slot_text (S.letter slot) n)) }
    ensures { Put out.old out.new result to (slot_text (S.letter slot) n) }
{
    put_lettered(out, to, slot.letter(), n)
}

// A word and the slot behind it, ending at the place to.
pub fn put_field<S: Lettered>(out: &mut [u8], to: usize, word: &[u8], slot: S, n: u64) -> usize
    requires { RoomFor out.old to (length word.now + length (slot_text (S.letter slot) n)) }
    ensures { Put out.old out.new result to (word.now ++ slot_text (S.letter slot) n) }
{
    let to = put_slot(out, to, slot, n);
    put(out, to, word)
}
