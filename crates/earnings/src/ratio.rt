// A ratio in lowest terms.
ghost use Rattle.std.specs.Prelude.{◌≡◌, ◌<◌};
ghost use Rattle.earnings.specs.Ratio.{gcd, ratio_of};

#[derive(Clone, Copy)]
pub struct Ratio {
    pub numerator: u64,
    pub denominator: u64,
}

// The greatest common divisor, by Euclid's loop.
fn gcd(a: u64, b: u64) -> u64
    requires { 0 < b }
    ensures { (result ≡ gcd a b) × (0 < result) }
{
    let mut x = a;
    let mut y = b;
    while y != 0 {
        (x, y) = (y, x % y);
    }
    x
}

// Takings to the greatest takings, and 1 to 1 where nothing could be earned.
pub fn lowest(takings: u64, greatest: u64) -> Ratio
    ensures { result ≡ ratio_of takings greatest }
{
    if greatest == 0 {
        return Ratio {
            numerator: 1,
            denominator: 1,
        };
    }
    let common = gcd(takings, greatest);
    Ratio {
        numerator: takings / common,
        denominator: greatest / common,
    }
}
