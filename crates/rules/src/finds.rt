// The variable of the lowest order that a test passes.
ghost use Rattle.std.specs.Prelude.{ℕ, ◌<◌, length};
ghost use Rattle.rules.specs.Places.{Placed};
ghost use Rattle.rules.specs.Views.{market_of};

use crate::filled::Clearing;
use market::{FIRST_EXTRA, FIRST_PARENT};
use numbers::lowest_passing;

impl<'a> Clearing<'a> {
    // Of the parents of the baskets.
    pub(crate) fn lowest_basket<T: Fn(usize) -> bool>(&self, test: T) -> Option<usize>
        requires { (b : ℕ) → b < length (market_of self.now).baskets → T.pre test b }
        ensures { Placed 64 (T.post test) (length (market_of self.now).baskets) result }
    {
        lowest_passing(self.basket_count(), test).map(|b| FIRST_PARENT + b)
    }

    // Of the children and substitutes.
    pub(crate) fn lowest_extra<T: Fn(usize) -> bool>(&self, test: T) -> Option<usize>
        requires { (k : ℕ) → k < length (market_of self.now).extras → T.pre test k }
        ensures { Placed 160 (T.post test) (length (market_of self.now).extras) result }
    {
        lowest_passing(self.extra_count(), test).map(|k| FIRST_EXTRA + k)
    }
}
