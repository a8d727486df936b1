// What sell orders gain at the prices of a clearing.
ghost use Rattle.std.specs.Prelude.{◌≡◌, ◌<◌, length};
ghost use Rattle.numbers.specs.Sums.{Summed, Term, Within};
ghost use Rattle.rules.specs.Prices.{gain, surplus, parent_surplus, extra_surplus, basket_extra, basket_surplus, loop_basket};
ghost use Rattle.rules.specs.Views.{market_of, parts_of, prices_of};

use crate::filled::Clearing;
use crate::sales::Sale;
use market::PRODUCTS;
use numbers::sum_of;

impl<'a> Clearing<'a> {
    // quantity × (line price − own price)
    fn gain(&self, sale: Sale, p: usize) -> i64
        requires { p < 6 }
        ensures { Term (gain 1 (prices_of self.now) sale.window sale.quantities sale.price) 199798002 p result }
    {
        let price = self.price(sale.window, p);
        i64::from(sale.quantities[p]) * (i64::from(price) - i64::from(sale.price))
    }

    // What an order gains over its products, for each of its parts.
    fn gains(&self, sale: Sale) -> i64
        ensures { Summed (gain 1 (prices_of self.now) sale.window sale.quantities sale.price) 199798002 6 result }
    {
        sum_of(PRODUCTS, |p| self.gain(sale, p))
    }

    // parts × gains
    fn surplus(&self, sale: Sale) -> i64
        ensures is { result ≡ surplus 1 (prices_of self.now) sale.window sale.quantities sale.price sale.parts }
        ensures small { Within 11987880120000 result }
    {
        i64::from(sale.parts) * self.gains(sale)
    }

    // Apart from `extra_surplus`: each is asked for one order, and a `Sale` does not know which it is of.
    fn parent_surplus(&self, b: usize) -> i64
        requires { b < length (market_of self.now).baskets }
        ensures { Term (parent_surplus (market_of self.now) (parts_of self.now) 1 (prices_of self.now)) 11987880120000 b result }
    {
        self.surplus(self.parent_sale(b))
    }

    // The surplus of a child or substitute.
    pub(crate) fn extra_surplus(&self, k: usize) -> i64
        requires { k < length (market_of self.now).extras }
        ensures { Term (extra_surplus (market_of self.now) (parts_of self.now) 1 (prices_of self.now)) 11987880120000 k result }
    {
        self.surplus(self.extra_sale(k))
    }

    fn basket_extra(&self, b: usize, k: usize) -> i64
        requires { k < length (market_of self.now).extras }
        ensures { Term (basket_extra (market_of self.now) (parts_of self.now) 1 (prices_of self.now) b) 11987880120000 k result }
    {
        if usize::from(self.extra(k).basket) != b {
            return 0;
        }
        self.extra_surplus(k)
    }

    fn basket_extras(&self, b: usize) -> i64
        ensures { Summed (basket_extra (market_of self.now) (parts_of self.now) 1 (prices_of self.now) b) 11987880120000 (length (market_of self.now).extras) result }
    {
        sum_of(self.extra_count(), |k| self.basket_extra(b, k))
    }

    // The surplus of a basket over all its orders.
    pub(crate) fn basket_surplus(&self, b: usize) -> i64
        requires { b < length (market_of self.now).baskets }
        ensures { Term (basket_surplus (market_of self.now) (parts_of self.now) 1 (prices_of self.now)) 1162824371640000 b result }
    {
        self.parent_surplus(b) + self.basket_extras(b)
    }

    fn loop_basket(&self, ring: u8, c: usize) -> i64
        requires { c < length (market_of self.now).baskets }
        ensures { Term (loop_basket (market_of self.now) (parts_of self.now) 1 (prices_of self.now) ring) 1162824371640000 c result }
    {
        if self.basket(c).ring != ring {
            return 0;
        }
        self.basket_surplus(c)
    }

    // The surplus of all baskets of a loop together.
    pub(crate) fn loop_surplus(&self, ring: u8) -> i64
        ensures { Summed (loop_basket (market_of self.now) (parts_of self.now) 1 (prices_of self.now) ring) 1162824371640000 (length (market_of self.now).baskets) result }
    {
        sum_of(self.basket_count(), |c| self.loop_basket(ring, c))
    }
}
