// What is told of a state: its page.
ghost use Rattle.page.specs.Printing.{page_of};

use day::Day;
use teller::Text;

#[derive(Clone, Copy)]
pub struct Page {
    pub day: Day,
}

impl Text for Page {
    ghost text = { λ p. page_of p.day };
}
