// The acceptance programme of a closed market, answered from its entries.
ghost use Rattle.std.specs.Prelude.{◌≡◌};
ghost use Rattle.market.specs.View.{closed_of};
ghost use Rattle.market.proofs.Books.{closed_lawful};
ghost use Rattle.auction.specs.Acceptance.{acceptance};
ghost use Rattle.auction.specs.AcceptanceLaw.{acceptance_lawful};
ghost use Rattle.auction.specs.Views.{accepted_market};

use bound::Programme;
use market::{ClosedMarket, Order};

mod columns;
mod places;

// Its points are the clearings of the market that keep the rules on orders.
#[derive(Drop)]
pub struct AcceptanceProgramme<'a> {
    market: &'a ClosedMarket,
}

impl<'a> AcceptanceProgramme<'a> {
    pub fn over(market: &'a ClosedMarket) -> AcceptanceProgramme<'a>
        ensures { accepted_market result ≡ closed_of market.now }
    {
        AcceptanceProgramme { market }
    }
}

impl<'a> Programme for AcceptanceProgramme<'a> {
    const SCALE: i64 = 10_000;

    const VARIABLES: usize = market::VARIABLES;

    ghost table = { λ p. acceptance (accepted_market p) };

    ghost lawful = { λ p. acceptance_lawful (accepted_market p) (closed_lawful p.market.now) };

    fn scale_value(&self) -> i64 {
        Self::SCALE
    }

    fn variable_count(&self) -> usize {
        Self::VARIABLES
    }

    fn rows(&self) -> usize {
        places::ROWS
    }

    fn limits(&self, v: usize) -> (i64, i64) {
        (0, self.high_at(v))
    }

    fn whole(&self, v: usize) -> bool {
        matches!(Order::of(v), Some(order @ Order::Parent(_)) if self.market.has(order))
    }

    fn objective(&self, v: usize) -> i64 {
        self.value_at(v)
    }

    fn coefficient(&self, row: usize, v: usize) -> i64 {
        let row = self.row_at(row);
        match Order::of(v) {
            Some(Order::Buy(i)) => self.of_buy(row, i),
            Some(Order::Parent(b)) => self.of_basket(row, b),
            Some(Order::Extra(k)) => self.of_extra(row, k),
            None => 0,
        }
    }

    fn right_side(&self, row: usize) -> i64 {
        self.row_at(row).side()
    }
}
