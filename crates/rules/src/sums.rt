// Sums over all sell orders of a kind, of what is asked of each sale.
ghost use Rattle.std.specs.Prelude.{ℕ, ◌*◌, ◌^◌, ◌<◌, ℤ, length};
ghost use Rattle.numbers.specs.Sums.{Summed, Terms};
ghost use Rattle.rules.specs.Sales.{OfParent, OfExtra};
ghost use Rattle.rules.specs.Views.{market_of, parts_of};

use crate::filled::Clearing;
use crate::sales::Sale;
use numbers::sum_of;

impl<'a> Clearing<'a> {
    // Over the parents of the baskets.
    pub(crate) fn parents_sum<T: Fn(Sale) -> i64>(&self, term: T) -> i64
        requires asked { T.IsAlwaysCallable term }
        requires fits { (f : ℕ → ℤ) × (size : ℕ) × (96 * size < 2 ^ 63) × Terms (OfParent (market_of self.now) (parts_of self.now) (T.post term)) f size (length (market_of self.now).baskets) }
        ensures { (f : ℕ → ℤ) (size : ℕ) → Terms (OfParent (market_of self.now) (parts_of self.now) (T.post term)) f size (length (market_of self.now).baskets) → Summed f size (length (market_of self.now).baskets) result }
    {
        sum_of(
            self.basket_count(),
            |b|
                requires { T.IsAlwaysCallable term × (b < length (market_of self.now).baskets) }
                ensures { OfParent (market_of self.entry.now) (parts_of self.entry.now) (T.post term) b result }
            { term(self.parent_sale(b)) },
        )
    }

    // Over the children and substitutes.
    pub(crate) fn extras_sum<T: Fn(Sale) -> i64>(&self, term: T) -> i64
        requires asked { T.IsAlwaysCallable term }
        requires fits { (f : ℕ → ℤ) × (size : ℕ) × (96 * size < 2 ^ 63) × Terms (OfExtra (market_of self.now) (parts_of self.now) (T.post term)) f size (length (market_of self.now).extras) }
        ensures { (f : ℕ → ℤ) (size : ℕ) → Terms (OfExtra (market_of self.now) (parts_of self.now) (T.post term)) f size (length (market_of self.now).extras) → Summed f size (length (market_of self.now).extras) result }
    {
        sum_of(
            self.extra_count(),
            |k|
                requires { T.IsAlwaysCallable term × (k < length (market_of self.now).extras) }
                ensures { OfExtra (market_of self.entry.now) (parts_of self.entry.now) (T.post term) k result }
            { term(self.extra_sale(k)) },
        )
    }
}
