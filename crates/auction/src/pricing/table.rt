// The price programme's answers.
ghost use Rattle.std.specs.Prelude.{◌≡◌, ℕ, ◌<◌};
ghost use Rattle.market.specs.View.{closed_of};
ghost use Rattle.market.proofs.Books.{closed_lawful};
ghost use Rattle.rules.specs.Clearings.{Parts};
ghost use Rattle.rules.specs.Scratch.{parts_in};
ghost use Rattle.auction.specs.Pricing.{pricing};
ghost use Rattle.auction.specs.PricingLaw.{held_lawful};
ghost use Rattle.auction.specs.Views.{priced_market, held_in, held_parts};

use super::{PriceProgramme, places};
use crate::rows::Measure;
use bound::Programme;
use market::{ClosedMarket, LINES};

impl<'a> PriceProgramme<'a> {
    // Over a market and parts of 0 to 10,000, as a clearing has them.
    pub fn over(market: &'a ClosedMarket, parts: &'a [i32]) -> PriceProgramme<'a>
        requires { (v : ℕ) → v < 256 → Parts 10000 (parts_in parts.now v) }
        ensures market { priced_market result ≡ closed_of market.now }
        ensures parts { held_in result ≡ parts.now }
    {
        PriceProgramme { market, parts }
    }
}

impl<'a> Programme for PriceProgramme<'a> {
    const SCALE: i64 = 1_000;

    const VARIABLES: usize = LINES;

    ghost table = { λ p. pricing (priced_market p) (held_parts p) };

    ghost lawful = { λ p. held_lawful (priced_market p) (closed_lawful p.market.now) (held_parts p) (λ v h. (p.held v h).0) (λ v h. (p.held v h).1) };

    fn scale_value(&self) -> i64 {
        Self::SCALE
    }

    fn variable_count(&self) -> usize {
        Self::VARIABLES
    }

    fn rows(&self) -> usize {
        places::ROWS
    }

    fn limits(&self, v: usize) -> (i64, i64) {
        self.limits_of(v)
    }

    // A price may be any fraction.
    fn whole(&self, v: usize) -> bool {
        false
    }

    fn objective(&self, v: usize) -> i64 {
        if v < Self::VARIABLES {
            self.sold_less(v)
        } else {
            0
        }
    }

    fn coefficient(&self, row: usize, v: usize) -> i64 {
        if v < Self::VARIABLES {
            self.measured(self.row_at(row), Measure::On(v))
        } else {
            0
        }
    }

    fn right_side(&self, row: usize) -> i64 {
        self.measured(self.row_at(row), Measure::Value)
    }
}
