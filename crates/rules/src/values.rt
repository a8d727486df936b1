// Welfare and cost, in ten-thousandths of a penny an hour.
ghost use Rattle.std.specs.Prelude.{◌≡◌, ◌<◌, length};
ghost use Rattle.numbers.specs.Sums.{Summed, Term, Within};
ghost use Rattle.market.specs.View.{closed_of};
ghost use Rattle.rules.specs.Clearings.{product_worth, buy_worth};
ghost use Rattle.rules.specs.Clearings.{welfare as welfare_of};
ghost use Rattle.rules.specs.Prices.{product_payment};
ghost use Rattle.rules.specs.Prices.{cost as cost_of};
ghost use Rattle.rules.specs.Scratch.{Filled, parts_in, prices_in};
ghost use Rattle.rules.specs.Views.{market_of, parts_of, prices_of};

use crate::amounts::worth;
use crate::filled::Clearing;
use crate::sales::Sale;
use market::{ClosedMarket, Order, PRODUCTS};
use numbers::sum_of;

// What buys are worth, less what sells are worth, in the clearing of a market that the numbers give.
pub fn welfare(m: &ClosedMarket, s: &[i32]) -> i64
    requires { Filled s.now }
    ensures is { result ≡ welfare_of (closed_of m.now) (parts_in s.now) }
    ensures size { Within 5000000000000000 result }
{
    Clearing::over(m, s).welfare()
}

// What all sell orders are paid in it.
pub fn cost(m: &ClosedMarket, s: &[i32]) -> i64
    requires { Filled s.now }
    ensures is { result ≡ cost_of (closed_of m.now) (parts_in s.now) (prices_in s.now) }
    ensures size { Within 5000000000000000 result }
{
    Clearing::over(m, s).cost()
}

impl Sale {
    fn product_worth(self, p: usize) -> i64
        requires { p < 6 }
        ensures { Term (product_worth self.price self.quantities self.parts) 998990010000 p result }
    {
        worth(self.price, self.quantities[p], self.parts)
    }

    // At its own price.
    fn worth(self) -> i64
        ensures { Summed (product_worth self.price self.quantities self.parts) 998990010000 6 result }
    {
        sum_of(PRODUCTS, |p| self.product_worth(p))
    }
}

impl<'a> Clearing<'a> {
    fn buy_worth(&self, i: usize) -> i64
        requires { i < length (market_of self.now).buys }
        ensures { Term (buy_worth (market_of self.now) (parts_of self.now)) 9998900010000 i result }
    {
        let order = self.buy(i);
        worth(order.price, order.quantity, self.parts(Order::Buy(i)))
    }

    fn buys_worth(&self) -> i64
        ensures { Summed (buy_worth (market_of self.now) (parts_of self.now)) 9998900010000 (length (market_of self.now).buys) result }
    {
        sum_of(self.buy_count(), |i| self.buy_worth(i))
    }

    // What buys are worth, less what sells are worth.
    pub fn welfare(&self) -> i64
        ensures is { result ≡ welfare_of (market_of self.now) (parts_of self.now) }
        ensures size { Within 5000000000000000 result }
    {
        let sells = self.parents_sum(|sale| sale.worth()) + self.extras_sum(|sale| sale.worth());
        self.buys_worth() - sells
    }

    fn product_payment(&self, sale: Sale, p: usize) -> i64
        requires { p < 6 }
        ensures { Term (product_payment (prices_of self.now) sale.window sale.quantities sale.parts) 998990010000 p result }
    {
        worth(self.price(sale.window, p), sale.quantities[p], sale.parts)
    }

    // What a sell order is paid.
    fn payment(&self, sale: Sale) -> i64
        ensures { Summed (product_payment (prices_of self.now) sale.window sale.quantities sale.parts) 998990010000 6 result }
    {
        sum_of(PRODUCTS, |p| self.product_payment(sale, p))
    }

    // What all sell orders are paid.
    pub fn cost(&self) -> i64
        ensures is { result ≡ cost_of (market_of self.now) (parts_of self.now) (prices_of self.now) }
        ensures size { Within 5000000000000000 result }
    {
        self.parents_sum(|sale| self.payment(sale)) + self.extras_sum(|sale| self.payment(sale))
    }
}
