// A unit's baskets that share a half hour: at most one of them may be accepted.
ghost use Rattle.std.specs.Prelude.{◌≡◌, ◌<◌, ◌≤◌, length, Decides};
ghost use Rattle.numbers.specs.Searches.{Lowest};
ghost use Rattle.market.specs.Market.{window_at, basket_at};
ghost use Rattle.rules.specs.Clearings.{Exclude};
ghost use Rattle.rules.specs.Broken.{Broken, Clash, UnitTwice};
ghost use Rattle.rules.specs.Views.{market_of, parts_of, prices_of};

use crate::faults::Rule;
use crate::filled::Clearing;
use market::{Order, Window};
use numbers::lowest_passing;

impl<'a> Clearing<'a> {
    fn window_of(&self, b: usize) -> Window
        requires { b < length (market_of self.now).baskets }
        ensures is { result ≡ window_at (market_of self.now) (basket_at (market_of self.now) b).window }
        ensures some { 1 ≤ result.length }
    {
        self.market.window(usize::from(self.basket(b).window))
    }

    // Two baskets of one unit that share a half hour.
    fn exclude(&self, b: usize, c: usize) -> bool
        requires { (b < length (market_of self.now).baskets) × (c < length (market_of self.now).baskets) }
        ensures { Decides result (Exclude (market_of self.now) b c) }
    {
        let one = self.basket(b);
        let other = self.basket(c);
        let here = self.window_of(b);
        let there = self.window_of(c);
        b != c && one.unit == other.unit && here.shares(there)
    }

    // Two that exclude each other, and are both accepted.
    fn clash(&self, b: usize, c: usize) -> bool
        requires { (b < length (market_of self.now).baskets) × (c < length (market_of self.now).baskets) }
        ensures { Decides result (Clash (market_of self.now) (parts_of self.now) b c) }
    {
        let parts = self.parts(Order::Parent(b));
        let others = self.parts(Order::Parent(c));
        self.exclude(b, c) && parts > 0 && others > 0
    }

    fn clashes(&self, b: usize) -> bool
        requires { b < length (market_of self.now).baskets }
        ensures { Decides result (UnitTwice (market_of self.now) (parts_of self.now) b) }
    {
        lowest_passing(self.basket_count(), |c| self.clash(b, c)).is_some()
    }

    pub(crate) fn unit_twice(&self) -> Option<usize>
        ensures { Lowest (Broken (market_of self.now) (parts_of self.now) (prices_of self.now) Rule.Units) result }
    {
        self.lowest_basket(|b| self.clashes(b))
    }
}
