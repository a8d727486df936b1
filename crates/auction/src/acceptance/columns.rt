// The coefficients of the acceptance programme: what an order has in a row.
ghost use Rattle.std.specs.Prelude.{◌≡◌, ◌&&◌, length, ◌==◌, nat_lt};
ghost use Rattle.market.specs.Market.{extra_at, is_substitute};
ghost use Rattle.auction.specs.Orders.{buy_on};
ghost use Rattle.auction.specs.Acceptance.{coefficients, stands};
ghost use Rattle.auction.specs.Views.{accepted_market};

use super::AcceptanceProgramme;
use crate::orders::{buy_line, first_of};
use crate::rows::{Measure, Row};
use crate::sales::Sale;
use market::Role;

impl<'a> AcceptanceProgramme<'a> {
    // The quantity that a buy asks on a line.
    fn buy_on(&self, line: usize, i: usize) -> u16
        ensures { result ≡ buy_on (accepted_market self.now) line i }
    {
        if buy_line(self.market, i) == line {
            self.market.buy(i).quantity
        } else {
            0
        }
    }

    pub(crate) fn of_buy(&self, row: Row, i: usize) -> i64
        ensures { result ≡ (coefficients (accepted_market self.now) row).buys i }
    {
        match row {
            Row::Line(l) => i64::from(self.buy_on(l, i)),
            Row::Family(f) => i64::from(
                i < self.market.buy_count() && usize::from(self.market.buy(i).family) == f,
            ),
            Row::Child(_)
            | Row::Substitutes(_)
            | Row::AtMostFirst(_)
            | Row::AtLeastFirst(_)
            | Row::Unit(_)
            | Row::Zero => 0,
        }
    }

    // Whether basket c is of the unit of b and covers its first half hour.
    fn covers_start(&self, b: usize, c: usize) -> bool
        ensures { result ≡ stands (accepted_market self.now) b c }
    {
        let this = self.market.basket(b);
        let other = self.market.basket(c);
        let start = self.market.window(usize::from(this.window)).start;
        let span = self.market.window(usize::from(other.window));
        c < self.market.basket_count()
            && other.unit == this.unit
            && span.start <= start
            && u16::from(start) < u16::from(span.start) + u16::from(span.length)
    }

    pub(crate) fn of_basket(&self, row: Row, b: usize) -> i64
        ensures { result ≡ (coefficients (accepted_market self.now) row).baskets b }
    {
        match row {
            Row::Line(l) => -Sale::of_parent(self.market, b).measured(Measure::On(l)),
            Row::Child(k) => -i64::from(b == usize::from(self.market.extra(k).basket)),
            Row::Substitutes(c) => -i64::from(b == c),
            Row::AtMostFirst(c) => i64::from(b == c) - i64::from(b == first_of(self.market, c)),
            Row::AtLeastFirst(c) => i64::from(b == first_of(self.market, c)) - i64::from(b == c),
            Row::Unit(c) => i64::from(self.covers_start(c, b)),
            Row::Family(_) | Row::Zero => 0,
        }
    }

    fn is_substitute_of(&self, k: usize, b: usize) -> bool
        ensures { result ≡ (nat_lt k (length (accepted_market self.now).extras) && (is_substitute (extra_at (accepted_market self.now) k).role && (extra_at (accepted_market self.now) k).basket == b)) }
    {
        let extra = self.market.extra(k);
        k < self.market.extra_count()
            && extra.role == Role::Substitute
            && usize::from(extra.basket) == b
    }

    pub(crate) fn of_extra(&self, row: Row, k: usize) -> i64
        ensures { result ≡ (coefficients (accepted_market self.now) row).extras k }
    {
        match row {
            Row::Line(l) => -Sale::of_extra(self.market, k).measured(Measure::On(l)),
            Row::Child(j) => i64::from(k == j),
            Row::Substitutes(b) => i64::from(self.is_substitute_of(k, b)),
            Row::Family(_)
            | Row::AtMostFirst(_)
            | Row::AtLeastFirst(_)
            | Row::Unit(_)
            | Row::Zero => 0,
        }
    }
}
