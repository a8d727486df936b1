// What both programmes ask of the orders of a closed market. The market is another crate's type, so these are no methods.
ghost use Rattle.std.specs.Prelude.{◌≡◌};
ghost use Rattle.market.specs.View.{closed_of};
ghost use Rattle.auction.specs.Orders.{buy_line, order_value};
ghost use Rattle.auction.specs.Acceptance.{first};

use market::{ClosedMarket, PRODUCTS};
use numbers::lowest_passing;

// The line of a buy.
pub(crate) fn buy_line(market: &ClosedMarket, i: usize) -> usize
    ensures { result ≡ buy_line (closed_of market.now) i }
{
    let buy = market.buy(i);
    PRODUCTS * usize::from(buy.window) + usize::from(buy.product)
}

// What an order is worth for each of its parts, be it bought or sold.
pub(crate) fn value_of(price: i32, quantity: u32) -> i64
    ensures { result ≡ order_value price quantity }
{
    i64::from(price) * i64::from(quantity)
}

// The first basket of the loop of b, or the number of baskets where none is of it: no `Option`, since the tables in specs/ say
// this number and the rows compare with it as with any other.
pub(crate) fn first_of(market: &ClosedMarket, b: usize) -> usize
    ensures { result ≡ first (closed_of market.now) b }
{
    let ring = market.basket(b).ring;
    let count = market.basket_count();
    lowest_passing(count, |c| market.basket(c).ring == ring).unwrap_or(count)
}
