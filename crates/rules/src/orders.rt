// The rules on orders: for each a test of one place, and the lowest place at which the rule is broken.
ghost use Rattle.std.specs.Prelude.{◌≡◌, ◌<◌, length, Decides};
ghost use Rattle.numbers.specs.Searches.{Lowest};
ghost use Rattle.numbers.specs.Sums.{Summed, Term};
ghost use Rattle.rules.specs.Clearings.{substitute_part, family_part};
ghost use Rattle.rules.specs.Broken.{Broken, FirstOf, SplitParent, ChildAbove, SubstitutesAbove, FamilyOverfull, LoopUneven};
ghost use Rattle.rules.specs.Views.{market_of, parts_of, prices_of};

use crate::faults::Rule;
use crate::filled::{Clearing, FULL};
use market::{Order, Role};
use numbers::{lowest_passing, sum_of};

// Families are numbered 1 to 64.
const FAMILIES: usize = 64;

impl<'a> Clearing<'a> {
    // A parent with neither none nor all of its parts.
    fn is_split(&self, b: usize) -> bool
        requires { b < length (market_of self.now).baskets }
        ensures { Decides result (SplitParent (parts_of self.now) b) }
    {
        let parts = self.parts(Order::Parent(b));
        parts != 0 && parts != FULL
    }

    pub(crate) fn split_parent(&self) -> Option<usize>
        ensures { Lowest (Broken (market_of self.now) (parts_of self.now) (prices_of self.now) Rule.WholeParents) result }
    {
        self.lowest_basket(|b| self.is_split(b))
    }

    // A child with more parts than its parent. A match, so that it stands there, too, what is asked of a substitute: nothing.
    fn is_child_above(&self, k: usize) -> bool
        requires { k < length (market_of self.now).extras }
        ensures { Decides result (ChildAbove (market_of self.now) (parts_of self.now) k) }
    {
        let order = self.extra(k);
        match order.role {
            Role::Child => {
                self.parts(Order::Extra(k)) > self.parts(Order::Parent(usize::from(order.basket)))
            }
            Role::Substitute => false,
        }
    }

    pub(crate) fn child_above(&self) -> Option<usize>
        ensures { Lowest (Broken (market_of self.now) (parts_of self.now) (prices_of self.now) Rule.ChildrenUnderParents) result }
    {
        self.lowest_extra(|k| self.is_child_above(k))
    }

    // The parts of k if it is a substitute of basket b, else none.
    fn substitute_part(&self, b: usize, k: usize) -> i64
        requires { k < length (market_of self.now).extras }
        ensures { Term (substitute_part (market_of self.now) (parts_of self.now) b) 10000 k result }
    {
        let order = self.extra(k);
        match order.role {
            Role::Substitute if usize::from(order.basket) == b => {
                i64::from(self.parts(Order::Extra(k)))
            }
            _ => 0,
        }
    }

    fn substitute_parts(&self, b: usize) -> i64
        ensures { Summed (substitute_part (market_of self.now) (parts_of self.now) b) 10000 (length (market_of self.now).extras) result }
    {
        sum_of(self.extra_count(), |k| self.substitute_part(b, k))
    }

    // A basket whose substitutes together have more parts than its parent.
    fn are_substitutes_above(&self, b: usize) -> bool
        requires { b < length (market_of self.now).baskets }
        ensures { Decides result (SubstitutesAbove (market_of self.now) (parts_of self.now) b) }
    {
        self.substitute_parts(b) > i64::from(self.parts(Order::Parent(b)))
    }

    pub(crate) fn substitutes_above(&self) -> Option<usize>
        ensures { Lowest (Broken (market_of self.now) (parts_of self.now) (prices_of self.now) Rule.SubstitutesUnderParents) result }
    {
        self.lowest_basket(|b| self.are_substitutes_above(b))
    }

    // The parts of buy i if it is of family f, else none.
    fn family_part(&self, f: usize, i: usize) -> i64
        requires { i < length (market_of self.now).buys }
        ensures { Term (family_part (market_of self.now) (parts_of self.now) f) 10000 i result }
    {
        if usize::from(self.buy(i).family) != f {
            return 0;
        }
        i64::from(self.parts(Order::Buy(i)))
    }

    fn family_parts(&self, f: usize) -> i64
        ensures { Summed (family_part (market_of self.now) (parts_of self.now) f) 10000 (length (market_of self.now).buys) result }
    {
        sum_of(self.buy_count(), |i| self.family_part(f, i))
    }

    // A family whose buys together have more than all parts; the number 0 stands for none.
    fn is_overfull(&self, f: usize) -> bool
        ensures { Decides result (FamilyOverfull (market_of self.now) (parts_of self.now) f) }
    {
        f > 0 && self.family_parts(f) > i64::from(FULL)
    }

    pub(crate) fn family_overfull(&self) -> Option<usize>
        ensures { Lowest (Broken (market_of self.now) (parts_of self.now) (prices_of self.now) Rule.Families) result }
    {
        lowest_passing(FAMILIES + 1, |f| self.is_overfull(f))
    }

    // The first basket of b's loop.
    pub(crate) fn first_of(&self, b: usize) -> usize
        requires { b < length (market_of self.now).baskets }
        ensures { FirstOf (market_of self.now) b result }
    {
        let ring = self.basket(b).ring;
        lowest_passing(b, |c| self.basket(c).ring == ring).unwrap_or(b)
    }

    // A basket in a loop whose parent has other parts than that of the loop's first basket.
    fn is_uneven(&self, b: usize) -> bool
        requires { b < length (market_of self.now).baskets }
        ensures { Decides result (LoopUneven (market_of self.now) (parts_of self.now) b) }
    {
        let first = self.first_of(b);
        self.basket(b).ring != 0 && self.parts(Order::Parent(b)) != self.parts(Order::Parent(first))
    }

    pub(crate) fn loop_uneven(&self) -> Option<usize>
        ensures { Lowest (Broken (market_of self.now) (parts_of self.now) (prices_of self.now) Rule.Loops) result }
    {
        self.lowest_basket(|b| self.is_uneven(b))
    }
}
