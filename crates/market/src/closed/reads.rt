// Reading a closed market. Beyond the last entry there are zeros, so no number is a mistake to ask for.
ghost use Rattle.std.specs.Prelude.{◌≡◌, ◌<◌, length};
ghost use Rattle.market.specs.Market.{window_at, buy_at, basket_at, extra_at, SameBasket, SameExtra};
ghost use Rattle.market.specs.Variables.{is_entered};
ghost use Rattle.market.specs.View.{closed_of};

use super::ClosedMarket;
use crate::entries::{Basket, Buy, Extra, Window};
use crate::variables::Order;

impl ClosedMarket {
    pub fn windows(&self) -> &[Window]
        ensures { result.now ≡ (closed_of self.now).windows }
    {
        &self.book.windows
    }

    pub fn buys(&self) -> &[Buy]
        ensures { result.now ≡ (closed_of self.now).buys }
    {
        &self.book.buys
    }

    pub fn baskets(&self) -> &[Basket]
        ensures { result.now ≡ (closed_of self.now).baskets }
    {
        &self.book.baskets
    }

    // The children and substitutes.
    pub fn extras(&self) -> &[Extra]
        ensures { result.now ≡ (closed_of self.now).extras }
    {
        &self.book.extras
    }

    pub fn window_count(&self) -> usize
        ensures { result ≡ length (closed_of self.now).windows }
    {
        self.windows().len()
    }

    pub fn buy_count(&self) -> usize
        ensures { result ≡ length (closed_of self.now).buys }
    {
        self.buys().len()
    }

    pub fn basket_count(&self) -> usize
        ensures { result ≡ length (closed_of self.now).baskets }
    {
        self.baskets().len()
    }

    pub fn extra_count(&self) -> usize
        ensures { result ≡ length (closed_of self.now).extras }
    {
        self.extras().len()
    }

    // Whether there is such an order.
    pub fn has(&self, order: Order) -> bool
        ensures { result ≡ is_entered (closed_of self.now) order }
    {
        match order {
            Order::Buy(i) => i < self.buy_count(),
            Order::Parent(b) => b < self.basket_count(),
            Order::Extra(k) => k < self.extra_count(),
        }
    }

    pub fn window(&self, w: usize) -> Window
        ensures { result ≡ window_at (closed_of self.now) w }
    {
        self.book.window(w)
    }

    pub fn buy(&self, i: usize) -> Buy
        ensures { result ≡ buy_at (closed_of self.now) i }
    {
        self.buys().get(i).copied().unwrap_or_default()
    }

    pub fn basket(&self, b: usize) -> Basket
        ensures entered { b < length (closed_of self.now).baskets → result ≡ basket_at (closed_of self.now) b }
        ensures same { SameBasket result (basket_at (closed_of self.now) b) }
    {
        self.baskets().get(b).copied().unwrap_or_default()
    }

    // A child or substitute.
    pub fn extra(&self, k: usize) -> Extra
        ensures entered { k < length (closed_of self.now).extras → result ≡ extra_at (closed_of self.now) k }
        ensures same { SameExtra result (extra_at (closed_of self.now) k) }
    {
        self.extras().get(k).copied().unwrap_or_default()
    }
}
