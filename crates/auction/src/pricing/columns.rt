// The coefficients and right sides of the price programme.
ghost use Rattle.std.specs.Prelude.{◌≡◌, neg_ℤ};
ghost use Rattle.auction.specs.Pricing.{price_measure, market_sum, Numbered};
ghost use Rattle.auction.specs.declared.rows.Measure.TheVariants.{On};
ghost use Rattle.auction.specs.Views.{priced_market, held_parts};

use super::PriceProgramme;
use crate::orders::buy_line;
use crate::rows::{Measure, PriceRow};
use crate::sales::Sale;

impl<'a> PriceProgramme<'a> {
    // Minus what is sold on a line.
    pub(crate) fn sold_less(&self, line: usize) -> i64
        ensures { result ≡ neg_ℤ (market_sum (priced_market self.now) (held_parts self.now) (On line)) }
    {
        -self.market_sum(Measure::On(line))
    }

    // What a line has in a row, or the row's right side.
    pub(crate) fn measured(&self, row: PriceRow, measure: Measure) -> i64
        requires { Numbered row }
        ensures { result ≡ price_measure (priced_market self.now) (held_parts self.now) row measure }
    {
        match row {
            PriceRow::Extra(k) => -Sale::of_extra(self.market, k).measured(measure),
            PriceRow::Basket(b) => -self.basket_sum(measure, b),
            PriceRow::Loop(b) => -self.loop_sum(measure, self.market.basket(b).ring),
            PriceRow::Buy(i) => match measure {
                Measure::On(line) => i64::from(line == buy_line(self.market, i)),
                Measure::Value => i64::from(self.market.buy(i).price),
            },
            PriceRow::Zero => 0,
        }
    }
}
