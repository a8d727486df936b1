// What is measured of sell orders, times their parts: of one order, of a basket's orders, of a loop's baskets, of all.
ghost use Rattle.std.specs.Prelude.{◌≡◌, ◌<◌, ◌*ℤ◌};
ghost use Rattle.numbers.specs.Sums.{Within, Term};
ghost use Rattle.auction.specs.Orders.{offered};
ghost use Rattle.auction.specs.Pricing.{parent_sum, extra_sum, of_basket, basket_sum, of_loop, loop_sum, market_sum};
ghost use Rattle.auction.specs.Views.{priced_market, held_parts};

use super::PriceProgramme;
use crate::rows::Measure;
use crate::sales::Sale;
use market::{FIRST_EXTRA, FIRST_PARENT};
use numbers::sum_of;

// Each is a definition of specs/Pricing, which takes what is measured and a number.
impl<'a> PriceProgramme<'a> {
    // Of a sell order, whose parts are those of a variable. The sums ask for numbers of baskets, children and substitutes below
    // 96: those alone have their parts among the first 256 numbers, and an `Order` in the place of the variable would ask the same.
    fn weighed(&self, measure: Measure, sale: &Sale, v: usize) -> i64
        requires { v < 256 }
        ensures is { result ≡ offered sale.now.window sale.now.quantities.now sale.now.price measure *ℤ held_parts self.now v }
        ensures small { Within 9998900010000 result }
    {
        sale.measured(measure) * self.part(v)
    }

    // Of the parent of a basket.
    fn parent_sum(&self, measure: Measure, b: usize) -> i64
        requires { b < 96 }
        ensures { Term (parent_sum (priced_market self.now) (held_parts self.now) measure) 9998900010000 b result }
    {
        self.weighed(measure, &Sale::of_parent(self.market, b), FIRST_PARENT + b)
    }

    // Of a child or substitute.
    fn extra_sum(&self, measure: Measure, k: usize) -> i64
        requires { k < 96 }
        ensures { Term (extra_sum (priced_market self.now) (held_parts self.now) measure) 9998900010000 k result }
    {
        self.weighed(measure, &Sale::of_extra(self.market, k), FIRST_EXTRA + k)
    }

    // Of a child or substitute, 0 for one of another basket.
    fn of_basket(&self, measure: Measure, b: usize, k: usize) -> i64
        requires { k < 96 }
        ensures { Term (of_basket (priced_market self.now) (held_parts self.now) measure b) 9998900010000 k result }
    {
        if usize::from(self.market.extra(k).basket) == b {
            self.extra_sum(measure, k)
        } else {
            0
        }
    }

    // Of all orders of a basket.
    pub(crate) fn basket_sum(&self, measure: Measure, b: usize) -> i64
        requires { b < 96 }
        ensures { Term (basket_sum (priced_market self.now) (held_parts self.now) measure) 969893300970000 b result }
    {
        self.parent_sum(measure, b)
            + sum_of(self.market.extra_count(), |k| self.of_basket(measure, b, k))
    }

    // Of all orders of a basket, 0 for one of another loop.
    fn of_loop(&self, measure: Measure, ring: u8, b: usize) -> i64
        requires { b < 96 }
        ensures { Term (of_loop (priced_market self.now) (held_parts self.now) measure ring) 969893300970000 b result }
    {
        if self.market.basket(b).ring == ring {
            self.basket_sum(measure, b)
        } else {
            0
        }
    }

    // Of all baskets of a loop.
    pub(crate) fn loop_sum(&self, measure: Measure, ring: u8) -> i64
        ensures is { result ≡ loop_sum (priced_market self.now) (held_parts self.now) measure ring }
        ensures small { Within 93109756893120000 result }
    {
        sum_of(
            self.market.basket_count(),
            |b| self.of_loop(measure, ring, b),
        )
    }

    // Of all sell orders.
    pub(crate) fn market_sum(&self, measure: Measure) -> i64
        ensures is { result ≡ market_sum (priced_market self.now) (held_parts self.now) measure }
        ensures small { Within 1919788801920000 result }
    {
        sum_of(self.market.basket_count(), |b| self.parent_sum(measure, b))
            + sum_of(self.market.extra_count(), |k| self.extra_sum(measure, k))
    }
}
