// Which variable and which row of the acceptance programme is about what.
ghost use Rattle.std.specs.Prelude.{◌≡◌, ◌/◌, ◌%◌, cond, length, nat_lt};
ghost use Rattle.auction.specs.declared.rows.Row.TheVariants.{Zero};
ghost use Rattle.auction.specs.Acceptance.{spread, entered, values, child_row, loop_row, row_at, side_of};
ghost use Rattle.auction.specs.Orders.{buy_value};
ghost use Rattle.auction.specs.Views.{accepted_market};

use super::AcceptanceProgramme;
use crate::orders::value_of;
use crate::rows::{Measure, Row};
use crate::sales::Sale;
use market::{LINES, Order, Role};

// Where each block of rows begins, after a row for each line: one row for each child or substitute, one for each basket
// with its substitutes, one for each family, two for each basket with a loop, and one for each basket in its unit.
const CHILD_ROWS: usize = LINES;

const SUBSTITUTES_ROWS: usize = 288;

const FAMILY_ROWS: usize = 384;

const LOOP_ROWS: usize = 448;

const UNIT_ROWS: usize = 640;

// How many there are.
pub(crate) const ROWS: usize = 736;

impl<'a> AcceptanceProgramme<'a> {
    // 1 for a variable of an order that is entered, else 0.
    pub(crate) fn high_at(&self, v: usize) -> i64
        ensures { result ≡ spread (entered (accepted_market self.now)) v }
    {
        i64::from(Order::of(v).is_some_and(|order| self.market.has(order)))
    }

    fn buy_value(&self, i: usize) -> i64
        ensures { result ≡ buy_value (accepted_market self.now) i }
    {
        let buy = self.market.buy(i);
        value_of(buy.price, u32::from(buy.quantity))
    }

    // What an order is worth for each of its parts, negated for a sell order.
    pub(crate) fn value_at(&self, v: usize) -> i64
        ensures { result ≡ spread (values (accepted_market self.now)) v }
    {
        match Order::of(v) {
            Some(Order::Buy(i)) => self.buy_value(i),
            Some(Order::Parent(b)) => -Sale::of_parent(self.market, b).measured(Measure::Value),
            Some(Order::Extra(k)) => -Sale::of_extra(self.market, k).measured(Measure::Value),
            None => 0,
        }
    }

    fn child_row(&self, k: usize) -> Row
        ensures { result ≡ child_row (accepted_market self.now) k }
    {
        if k < self.market.extra_count() && self.market.extra(k).role == Role::Child {
            Row::Child(k)
        } else {
            Row::Zero
        }
    }

    // The row of a basket, where it is entered.
    fn of_entered(&self, b: usize, row: Row) -> Row
        ensures { result ≡ cond (nat_lt b (length (accepted_market self.now).baskets)) row Zero }
    {
        if b < self.market.basket_count() {
            row
        } else {
            Row::Zero
        }
    }

    // Two rows for each basket, one after the other.
    fn loop_row(&self, n: usize) -> Row
        ensures { result ≡ loop_row (accepted_market self.now) (n / 2) (n % 2) }
    {
        let b = n / 2;
        if b >= self.market.basket_count() || self.market.basket(b).ring == 0 {
            Row::Zero
        } else if n % 2 == 0 {
            Row::AtMostFirst(b)
        } else {
            Row::AtLeastFirst(b)
        }
    }

    // What the row with a number is about.
    pub(crate) fn row_at(&self, r: usize) -> Row
        ensures { result ≡ row_at (accepted_market self.now) r }
    {
        match r {
            0..CHILD_ROWS => Row::Line(r),
            CHILD_ROWS..SUBSTITUTES_ROWS => self.child_row(r - CHILD_ROWS),
            SUBSTITUTES_ROWS..FAMILY_ROWS => {
                let b = r - SUBSTITUTES_ROWS;
                self.of_entered(b, Row::Substitutes(b))
            }
            // families are numbered from 1
            FAMILY_ROWS..LOOP_ROWS => Row::Family(1 + r - FAMILY_ROWS),
            LOOP_ROWS..UNIT_ROWS => self.loop_row(r - LOOP_ROWS),
            _ => {
                let b = r - UNIT_ROWS;
                self.of_entered(b, Row::Unit(b))
            }
        }
    }
}

impl Row {
    pub(crate) fn side(self) -> i64
        ensures { result ≡ side_of self }
    {
        i64::from(matches!(self, Row::Family(_) | Row::Unit(_)))
    }
}
