// Which line and which row of the price programme is about what.
ghost use Rattle.std.specs.Prelude.{◌≡◌, ◌/◌, ◌<◌, pos, if◌then◌else◌};
ghost use Rattle.numbers.specs.Sums.{Within};
ghost use Rattle.market.specs.Market.{window_at};
ghost use Rattle.market.specs.Services.{terms};
ghost use Rattle.auction.specs.Pricing.{priced, extra_row, basket_row, buy_row, price_row, Numbered};
ghost use Rattle.auction.specs.Views.{priced_market, held_parts};

use super::PriceProgramme;
use crate::orders::first_of;
use crate::rows::PriceRow;
use market::{FIRST_EXTRA, PRODUCTS};

// The greatest price.
const HIGHEST: i64 = 99_999;

// Where the rows of the baskets begin, after one for each child or substitute, and those of the buys.
const BASKET_ROWS: usize = 96;

const BUY_ROWS: usize = 192;

// How many there are.
pub(crate) const ROWS: usize = 256;

impl<'a> PriceProgramme<'a> {
    // The parts of a variable.
    pub(crate) fn part(&self, v: usize) -> i64
        requires { v < 256 }
        ensures is { result ≡ held_parts self.now v }
        ensures small { Within 10000 result }
    {
        self.parts.get(v).map_or(0, |part| i64::from(*part))
    }

    // The least and the greatest price of a line, both 0 where it has no window or product. The tests are those of `priced`, in
    // one expression: a market that lent a line's service as an `Option` would part them.
    pub(crate) fn limits_of(&self, line: usize) -> (i64, i64)
        ensures low { result.0 ≡ (if priced (priced_market self.now) line then (terms (window_at (priced_market self.now) (line / 6)).service).floor else pos 0) }
        ensures high { result.1 ≡ (if priced (priced_market self.now) line then pos 99999 else pos 0) }
    {
        let w = line / PRODUCTS;
        let service = self.market.window(w).service;
        if w < self.market.window_count() && line % PRODUCTS < service.products() {
            (i64::from(service.floor()), HIGHEST)
        } else {
            (0, 0)
        }
    }

    fn extra_row(&self, k: usize) -> PriceRow
        requires { k < 96 }
        ensures { result ≡ extra_row (priced_market self.now) (held_parts self.now) k }
    {
        if k < self.market.extra_count() && self.part(FIRST_EXTRA + k) > 0 {
            PriceRow::Extra(k)
        } else {
            PriceRow::Zero
        }
    }

    fn basket_row(&self, b: usize) -> PriceRow
        ensures { result ≡ basket_row (priced_market self.now) b }
    {
        if b >= self.market.basket_count() {
            PriceRow::Zero
        } else if self.market.basket(b).ring == 0 {
            PriceRow::Basket(b)
        } else if first_of(self.market, b) == b {
            PriceRow::Loop(b)
        } else {
            PriceRow::Zero
        }
    }

    fn buy_row(&self, i: usize) -> PriceRow
        ensures { result ≡ buy_row (priced_market self.now) (held_parts self.now) i }
    {
        if i < self.market.buy_count() && !self.market.buy(i).permit && self.part(i) > 0 {
            PriceRow::Buy(i)
        } else {
            PriceRow::Zero
        }
    }

    // What the row with a number is about.
    pub(crate) fn row_at(&self, r: usize) -> PriceRow
        ensures is { result ≡ price_row (priced_market self.now) (held_parts self.now) r }
        ensures numbered { Numbered result }
    {
        match r {
            0..BASKET_ROWS => self.extra_row(r),
            BASKET_ROWS..BUY_ROWS => self.basket_row(r - BASKET_ROWS),
            _ => self.buy_row(r - BUY_ROWS),
        }
    }
}
