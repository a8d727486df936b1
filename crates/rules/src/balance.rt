// The balance of each line: no more is bought than sold.
ghost use Rattle.std.specs.Prelude.{◌≡◌, ◌<◌, length, Decides, cond, ◌==◌, pos, ◌*ℤ◌, slice_index};
ghost use Rattle.numbers.specs.Searches.{Lowest};
ghost use Rattle.numbers.specs.Sums.{Summed, Term, Within};
ghost use Rattle.rules.specs.Clearings.{bought_by};
ghost use Rattle.rules.specs.Clearings.{sold as sold_on};
ghost use Rattle.rules.specs.Broken.{Broken, LineShort};
ghost use Rattle.rules.specs.Views.{market_of, parts_of, prices_of};

use crate::amounts::volume;
use crate::faults::Rule;
use crate::filled::Clearing;
use crate::sales::Sale;
use market::{LINES, Order, PRODUCTS};
use numbers::{lowest_passing, sum_of};

impl Sale {
    // The volume of product p, if the sale is in window w.
    fn sold_by(self, w: usize, p: usize) -> i64
        requires { p < 6 }
        ensures is { result ≡ cond (self.window == w) (pos (slice_index self.quantities p) *ℤ self.parts) (pos 0) }
        ensures small { Within 99990000 result }
    {
        if usize::from(self.window) != w {
            return 0;
        }
        volume(self.quantities[p], self.parts)
    }
}

impl<'a> Clearing<'a> {
    // The volume of buy i, if it is of product p in window w.
    fn bought_by(&self, w: usize, p: usize, i: usize) -> i64
        requires { i < length (market_of self.now).buys }
        ensures { Term (bought_by (market_of self.now) (parts_of self.now) w p) 99990000 i result }
    {
        let order = self.buy(i);
        if usize::from(order.window) != w || usize::from(order.product) != p {
            return 0;
        }
        volume(order.quantity, self.parts(Order::Buy(i)))
    }

    fn bought(&self, w: usize, p: usize) -> i64
        ensures { Summed (bought_by (market_of self.now) (parts_of self.now) w p) 99990000 (length (market_of self.now).buys) result }
    {
        sum_of(self.buy_count(), |i| self.bought_by(w, p, i))
    }

    fn sold(&self, w: usize, p: usize) -> i64
        requires { p < 6 }
        ensures { result ≡ sold_on (market_of self.now) (parts_of self.now) w p }
    {
        self.parents_sum(|sale| sale.sold_by(w, p)) + self.extras_sum(|sale| sale.sold_by(w, p))
    }

    // Line l is that of product l % 6 in window l / 6. Window and product go on as two, as the definitions take them: the sums
    // over products ask of one at a time, so a type of lines would be made anew for every term.
    fn is_short(&self, l: usize) -> bool
        ensures { Decides result (LineShort (market_of self.now) (parts_of self.now) l) }
    {
        self.bought(l / PRODUCTS, l % PRODUCTS) > self.sold(l / PRODUCTS, l % PRODUCTS)
    }

    pub(crate) fn line_short(&self) -> Option<usize>
        ensures { Lowest (Broken (market_of self.now) (parts_of self.now) (prices_of self.now) Rule.Balance) result }
    {
        lowest_passing(LINES, |l| self.is_short(l))
    }
}
