// The price rules, one function each: the lowest place at which the rule is broken.
ghost use Rattle.std.specs.Prelude.{◌≡◌, ◌<◌, length, Decides};
ghost use Rattle.numbers.specs.Searches.{Lowest};
ghost use Rattle.rules.specs.Broken.{Broken, ExtraLoses, BasketLoses, BuyOvercharged};
ghost use Rattle.rules.specs.Views.{market_of, parts_of, prices_of};

use crate::faults::Rule;
use crate::filled::Clearing;
use market::Order;
use numbers::lowest_passing;

impl<'a> Clearing<'a> {
    // A child or substitute that is accepted and loses.
    fn is_losing(&self, k: usize) -> bool
        requires { k < length (market_of self.now).extras }
        ensures { Decides result (ExtraLoses (market_of self.now) (parts_of self.now) (prices_of self.now) k) }
    {
        self.parts(Order::Extra(k)) > 0 && self.extra_surplus(k) < 0
    }

    pub(crate) fn extra_loses(&self) -> Option<usize>
        ensures { Lowest (Broken (market_of self.now) (parts_of self.now) (prices_of self.now) Rule.ExtraSurplus) result }
    {
        self.lowest_extra(|k| self.is_losing(k))
    }

    // A basket that loses, or the first basket of a loop that loses.
    fn is_sunk(&self, b: usize) -> bool
        requires { b < length (market_of self.now).baskets }
        ensures { Decides result (BasketLoses (market_of self.now) (parts_of self.now) (prices_of self.now) b) }
    {
        let ring = self.basket(b).ring;
        if ring == 0 {
            return self.basket_surplus(b) < 0;
        }
        if self.first_of(b) != b {
            return false;
        }
        self.loop_surplus(ring) < 0
    }

    pub(crate) fn basket_loses(&self) -> Option<usize>
        ensures { Lowest (Broken (market_of self.now) (parts_of self.now) (prices_of self.now) Rule.BasketSurplus) result }
    {
        self.lowest_basket(|b| self.is_sunk(b))
    }

    // An accepted buy that pays more than its own price without a permit.
    fn is_overcharged(&self, i: usize) -> bool
        requires { i < length (market_of self.now).buys }
        ensures { Decides result (BuyOvercharged (market_of self.now) (parts_of self.now) (prices_of self.now) i) }
    {
        let order = self.buy(i);
        let parts = self.parts(Order::Buy(i));
        let price = self.price(order.window, usize::from(order.product));
        parts > 0 && !order.permit && price > order.price
    }

    pub(crate) fn buy_overcharged(&self) -> Option<usize>
        ensures { Lowest (Broken (market_of self.now) (parts_of self.now) (prices_of self.now) Rule.BuyPrices) result }
    {
        lowest_passing(self.buy_count(), |i| self.is_overcharged(i))
    }
}
