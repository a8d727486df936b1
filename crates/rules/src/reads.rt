// The orders of a closed market one by one, their parts, and the price of a line.
ghost use Rattle.std.specs.Prelude.{◌≡◌, ◌+◌, ◌<◌, ◌≤◌, length};
ghost use Rattle.market.specs.Market.{buy_at, basket_at, extra_at};
ghost use Rattle.numbers.specs.Sums.{Within};
ghost use Rattle.market.specs.Variables.{variable_of};
ghost use Rattle.market.specs.View.{closed_of};
ghost use Rattle.rules.specs.Prices.{price_of};
ghost use Rattle.rules.specs.Clearings.{extra_window};
ghost use Rattle.rules.specs.Sales.{Sells};
ghost use Rattle.rules.specs.Scratch.{Filled};
ghost use Rattle.rules.specs.Views.{market_of, numbers_of, parts_of, prices_of};
ghost use Rattle.rules.specs.Sizes.{SmallBuy, SmallBasket, SmallExtra};

use crate::filled::Clearing;
use crate::sales::Sale;
use market::{
    Basket, Buy, ClosedMarket, Extra, FIRST_EXTRA, FIRST_PARENT, Order, PRODUCTS, VARIABLES,
};

// The variable of an order.
fn variable(order: Order) -> usize
    requires { variable_of order < 256 }
    ensures { result ≡ variable_of order }
{
    match order {
        Order::Buy(i) => i,
        Order::Parent(b) => FIRST_PARENT + b,
        Order::Extra(k) => FIRST_EXTRA + k,
    }
}

impl<'a> Clearing<'a> {
    // The clearing of a market that the numbers give.
    pub fn over(market: &'a ClosedMarket, numbers: &'a [i32]) -> Clearing<'a>
        requires { Filled numbers.now }
        ensures market { market_of result ≡ closed_of market.now }
        ensures numbers { numbers_of result ≡ numbers.now }
    {
        Clearing { market, numbers }
    }

    pub(crate) fn buy_count(&self) -> usize
        ensures is { result ≡ length (market_of self.now).buys }
        ensures few { result ≤ 64 }
    {
        self.market.buy_count()
    }

    pub(crate) fn basket_count(&self) -> usize
        ensures is { result ≡ length (market_of self.now).baskets }
        ensures few { result ≤ 96 }
    {
        self.market.basket_count()
    }

    pub(crate) fn extra_count(&self) -> usize
        ensures is { result ≡ length (market_of self.now).extras }
        ensures few { result ≤ 96 }
    {
        self.market.extra_count()
    }

    pub(crate) fn buy(&self, i: usize) -> Buy
        requires { i < length (market_of self.now).buys }
        ensures is { result ≡ buy_at (market_of self.now) i }
        ensures small { SmallBuy result }
    {
        self.market.buy(i)
    }

    // A number below the count, here and wherever an order is asked for by its number: a type of such numbers could not tell
    // of which market it is.
    pub(crate) fn basket(&self, b: usize) -> Basket
        requires { b < length (market_of self.now).baskets }
        ensures is { result ≡ basket_at (market_of self.now) b }
        ensures small { SmallBasket result }
    {
        self.market.basket(b)
    }

    pub(crate) fn extra(&self, k: usize) -> Extra
        requires { k < length (market_of self.now).extras }
        ensures is { result ≡ extra_at (market_of self.now) k }
        ensures small { SmallExtra (market_of self.now) result }
    {
        self.market.extra(k)
    }

    // The parts of an order.
    pub(crate) fn parts(&self, order: Order) -> i32
        requires { variable_of order < 256 }
        ensures is { result ≡ parts_of self.now (variable_of order) }
        ensures small { Within 10000 result }
    {
        self.numbers[variable(order)]
    }

    // What the parent of a basket sells.
    pub(crate) fn parent_sale(&self, b: usize) -> Sale
        requires { b < length (market_of self.now).baskets }
        ensures { Sells result (basket_at (market_of self.now) b).window (basket_at (market_of self.now) b).quantities (basket_at (market_of self.now) b).price (parts_of self.now (64 + b)) }
    {
        let order = self.basket(b);
        let quantities = order.quantities;
        Sale {
            window: order.window,
            quantities,
            price: order.price,
            parts: self.parts(Order::Parent(b)),
        }
    }

    // What a child or substitute sells, in its basket's window.
    pub(crate) fn extra_sale(&self, k: usize) -> Sale
        requires { k < length (market_of self.now).extras }
        ensures { Sells result (extra_window (market_of self.now) k) (extra_at (market_of self.now) k).quantities (extra_at (market_of self.now) k).price (parts_of self.now (160 + k)) }
    {
        let order = self.extra(k);
        let quantities = order.quantities;
        Sale {
            window: self.basket(usize::from(order.basket)).window,
            quantities,
            price: order.price,
            parts: self.parts(Order::Extra(k)),
        }
    }

    // The price of a product in a window.
    pub(crate) fn price(&self, window: u8, product: usize) -> i32
        requires { (window < 32) × (product < 6) }
        ensures is { result ≡ price_of (prices_of self.now) window product }
        ensures small { Within 99999 result }
    {
        self.numbers[VARIABLES + (PRODUCTS * usize::from(window) + product)]
    }
}
