// A sell order, be it the parent of a basket or one of its children and substitutes.
ghost use Rattle.std.specs.Prelude.{◌≡◌, pos};
ghost use Rattle.numbers.specs.Sums.{Within};
ghost use Rattle.market.specs.View.{closed_of};
ghost use Rattle.auction.specs.declared.rows.Measure.{Measure};
ghost use Rattle.auction.specs.Orders.{sell_on, total, offered};
ghost use Rattle.auction.specs.Pricing.{parent_measure, extra_measure};

use crate::orders::value_of;
use crate::rows::Measure;
use market::{ClosedMarket, PRODUCTS};
use numbers::sum_of;

// The quantities that it offers in its window, lent by its entry, and its price: a copy of the quantities would be made for each
// coefficient that is asked for. The rules have a sale of their own: the two sides share nothing, so that the theorems hold one
// to the other.
#[derive(Clone, Copy)]
pub(crate) struct Sale<'a> {
    window: u8,
    quantities: &'a [u16; PRODUCTS],
    price: i32,
    ghost small: { (a : Measure) → Within 999890001 (offered window quantities.now price a) },
}

impl<'a> Sale<'a> {
    // What an order that is not entered sells.
    fn nothing() -> Sale<'a>
        ensures { (a : Measure) → offered result.window result.quantities.now result.price a ≡ pos 0 }
    {
        Sale {
            window: 0,
            quantities: &[0; PRODUCTS],
            price: 0,
        }
    }

    // The parent of a basket.
    pub(crate) fn of_parent(market: &'a ClosedMarket, b: usize) -> Sale<'a>
        ensures { (a : Measure) → offered result.window result.quantities.now result.price a ≡ parent_measure (closed_of market.now) a b }
    {
        let Some(basket) = market.baskets().get(b) else {
            return Sale::nothing();
        };
        Sale {
            window: basket.window,
            quantities: &basket.quantities,
            price: basket.price,
        }
    }

    // A child or substitute, which is in the window of its basket.
    pub(crate) fn of_extra(market: &'a ClosedMarket, k: usize) -> Sale<'a>
        ensures { (a : Measure) → offered result.window result.quantities.now result.price a ≡ extra_measure (closed_of market.now) a k }
    {
        let Some(extra) = market.extras().get(k) else {
            return Sale::nothing();
        };
        Sale {
            window: market.basket(usize::from(extra.basket)).window,
            quantities: &extra.quantities,
            price: extra.price,
        }
    }

    // What is measured of it.
    pub(crate) fn measured(&self, measure: Measure) -> i64
        ensures is { result ≡ offered self.now.window self.now.quantities.now self.now.price measure }
        ensures small { Within 999890001 result }
    {
        match measure {
            Measure::On(line) => i64::from(self.on(line)),
            Measure::Value => value_of(self.price, self.total()),
        }
    }

    // The quantity that it offers on a line.
    fn on(&self, line: usize) -> u16
        ensures { result ≡ sell_on self.now.window self.now.quantities.now line }
    {
        if usize::from(self.window) == line / PRODUCTS {
            self.quantities[line % PRODUCTS]
        } else {
            0
        }
    }

    // Its quantity over the products: six of 16 bits fit 32.
    fn total(&self) -> u32
        ensures { result ≡ total self.now.quantities.now }
    {
        sum_of(PRODUCTS, |p| i64::from(self.quantities[p])) as u32
    }
}
