// What is told of a day's earnings: their line.
ghost use Rattle.earnings.specs.Earnings.{earnings_text};

use earnings::Figures;
use refusal::Refusal;
use teller::Text;

#[derive(Clone, Copy)]
pub struct Line {
    pub earnings: Result<Figures, Refusal>,
}

impl Text for Line {
    ghost text = { λ l. earnings_text l.earnings };
}
