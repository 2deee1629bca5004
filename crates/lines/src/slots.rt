// The limits of the lines, and the ranges of the numbers in their slots.
ghost use Rattle.std.specs.Prelude.{◌≡◌, ℕ};
ghost use Rattle.lines.specs.Limits.{line_buffer};
ghost use Rattle.lines.specs.Form.{letter, slot_max, in_slot};

// The longest line that is read, without its byte 10.
pub const MAX_LINE: usize = 200;

// The longest line with its byte 10.
pub const LINE_BUFFER: usize = MAX_LINE + 1;

// The greatest number of an input line: twelve digits.
pub const MAX_INPUT: u64 = 999_999_999_999;

// The greatest number of an output line.
pub const MAX_OUTPUT: u64 = 4_294_967_295;

// The greatest campaign number; a view's set has a bit for each.
pub const MAX_CAMPAIGN: u64 = 63;

pub const SET_BITS: u64 = MAX_CAMPAIGN + 1;

// The highest refusal number.
pub const MAX_QUESTION: u64 = 19;

// What takings, claim and full run up to.
pub const MAX_MONEY: u64 = 18_446_744_073_709_551_615;

// The set of a view: all of 64 bits.
pub const MAX_U64: u64 = 18_446_744_073_709_551_615;

// How long a buffer for the longest line and its byte 10 is.
pub fn line_buffer() -> usize
    ensures { result ≡ line_buffer }
{
    LINE_BUFFER
}

// What stands in a slot of a line form.
#[derive(Clone, Copy, PartialEq, Eq, Debug)]
pub enum Slot {
    // A number of an input line.
    Input,
    // A number of an output line.
    Number,
    Campaign,
    // The number of a refusal.
    Question,
    // Takings, claim or full.
    Money,
    // The names of a view.
    Names,
}

// What has the letter that stands for a slot in the templates of the forms: a slot, and a byte itself.
pub trait Lettered {
    ghost letter: { Self → ℕ };

    fn letter(self) -> u8
        ensures { result ≡ letter self };
}

impl Lettered for u8 {
    ghost letter = { λ s. s };

    fn letter(self) -> u8 {
        self
    }
}

impl Lettered for Slot {
    ghost letter = { letter };

    fn letter(self) -> u8 {
        match self {
            Slot::Input => b'I',
            Slot::Number => b'N',
            Slot::Campaign => b'C',
            Slot::Question => b'R',
            Slot::Money => b'M',
            Slot::Names => b'S',
        }
    }
}

// The greatest number in a slot, by its letter.
pub fn slot_max(slot: u8) -> u64
    ensures { result ≡ slot_max slot }
{
    match slot {
        b'I' => MAX_INPUT,
        b'N' => MAX_OUTPUT,
        b'C' => MAX_CAMPAIGN,
        b'R' => MAX_QUESTION,
        b'M' => MAX_MONEY,
        _ => MAX_U64,
    }
}

// Whether the number is in the range of the slot of this letter. A refusal number is not 0.
pub fn in_slot(slot: u8, number: u64) -> bool
    ensures { result ≡ in_slot slot number }
{
    ((slot != b'R') | (1 <= number)) & (number <= slot_max(slot))
}
