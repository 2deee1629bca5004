// The powers of the widths 1 to 16 with exponents 0 to 32: a power, or 0 where it is above 4,294,967,296.
#![tactic(auto)]

pub mod table;

ghost use Rattle.std.specs.Prelude.{◌≡◌, ◌≤◌};
ghost use Rattle.powers.specs.Limits.{max_depth, max_width};
ghost use Rattle.powers.specs.Power.{Deepest, listed};

// The greatest exponent up to 32 whose power of the width is at most 4,294,967,296: what the table says of question 5,
// without writing the table to the stack. Above width 16, where question 4 fails, which exponent it is stays free. An
// arm for each width is looked up; ranges would be tested in turn, 3 to 8 ns of a view.
pub fn deepest(width: u64) -> u64
    ensures { (width ≤ max_width → Deepest width result) × (result ≤ max_depth) }
{
    match width {
        0 => 32,
        1 => 32,
        2 => 32,
        3 => 20,
        4 => 16,
        5 => 13,
        6 => 12,
        7 => 11,
        8 => 10,
        9 => 10,
        10 => 9,
        11 => 9,
        12 => 8,
        13 => 8,
        14 => 8,
        15 => 8,
        _ => 8,
    }
}

// The table's entry for a width and an exponent, or 0 where it has none.
pub fn power(width: u64, exponent: u64) -> u64
    ensures { result ≡ listed width exponent }
{
    if (1 <= width) & (width <= 16) & (exponent <= 32) {
        return table::POWERS[(width - 1) as usize][exponent as usize];
    }
    0
}
