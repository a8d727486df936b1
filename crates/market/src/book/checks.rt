// What is wrong with one more entry beside those of a book.
ghost use Rattle.std.specs.Prelude.{◌≡◌, None, Some, MatchResult};
ghost use Rattle.market.specs.Market.{window_in};
ghost use Rattle.market.specs.Tests.{breaks, overlaps, broken, buy_absent, basket_absent, extra_absent, absent, full, overlapping, breaking, fault};
ghost use Rattle.market.specs.View.{market_of};

use super::{Book, MOST_BASKETS, MOST_BUYS, MOST_EXTRAS, MOST_WINDOWS};
use crate::entries::{Basket, Buy, Entry, Extra, Window};
use crate::faults::Fault;

impl Book {
    // The window with a number, zeros beyond the last.
    pub(crate) fn window(&self, w: usize) -> Window
        ensures { result ≡ window_in (market_of self.now).windows w }
    {
        self.windows.get(w).copied().unwrap_or_default()
    }

    fn overlaps(&self, window: Window) -> bool
        ensures { result ≡ overlaps (market_of self.now).windows window }
    {
        self.windows.iter().any(|earlier| earlier.clashes(window))
    }

    // Whether a later basket breaks its loop with an earlier one. A loop may not have two units, nor a half hour twice.
    fn breaks(&self, earlier: Basket, later: Basket) -> bool
        ensures { result ≡ breaks (market_of self.now).windows earlier later }
    {
        later.ring != 0
            && earlier.ring == later.ring
            && (earlier.unit != later.unit
                || self
                    .window(usize::from(earlier.window))
                    .shares(self.window(usize::from(later.window))))
    }

    fn broken(&self, basket: Basket) -> bool
        ensures { result ≡ broken (market_of self.now).windows (market_of self.now).baskets basket }
    {
        self.baskets
            .iter()
            .any(|earlier| self.breaks(*earlier, basket))
    }

    fn buy_absent(&self, buy: Buy) -> bool
        ensures { result ≡ buy_absent (market_of self.now).windows buy }
    {
        self.windows.get(usize::from(buy.window)).is_none_or(|window| {
            usize::from(buy.product) >= window.service.products()
                || buy.price < window.service.floor()
        })
    }

    fn basket_absent(&self, basket: Basket) -> bool
        ensures { result ≡ basket_absent (market_of self.now).windows basket }
    {
        self.windows.get(usize::from(basket.window)).is_none_or(|window| window
            .service
            .unfit(basket.quantities, basket.price))
    }

    fn extra_absent(&self, extra: Extra) -> bool
        ensures { result ≡ extra_absent (market_of self.now).windows (market_of self.now).baskets extra }
    {
        self.baskets
            .get(usize::from(extra.basket))
            .is_none_or(|parent| {
                self.window(usize::from(parent.window))
                    .service
                    .unfit(extra.quantities, extra.price)
            })
    }

    // Whether it names what is not there, or has what its service does not allow.
    fn absent(&self, entry: Entry) -> bool
        ensures { result ≡ absent (market_of self.now) entry }
    {
        match entry {
            Entry::OfWindow(_) => false,
            Entry::OfBuy(buy) => self.buy_absent(buy),
            Entry::OfBasket(basket) => self.basket_absent(basket),
            Entry::OfExtra(extra) => self.extra_absent(extra),
        }
    }

    fn full(&self, entry: Entry) -> bool
        ensures { result ≡ full (market_of self.now) entry }
    {
        match entry {
            Entry::OfWindow(_) => self.windows.len() >= MOST_WINDOWS,
            Entry::OfBuy(_) => self.buys.len() >= MOST_BUYS,
            Entry::OfBasket(_) => self.baskets.len() >= MOST_BASKETS,
            Entry::OfExtra(_) => self.extras.len() >= MOST_EXTRAS,
        }
    }

    fn overlapping(&self, entry: Entry) -> bool
        ensures { result ≡ overlapping (market_of self.now) entry }
    {
        matches!(entry, Entry::OfWindow(window) if self.overlaps(window))
    }

    fn breaking(&self, entry: Entry) -> bool
        ensures { result ≡ breaking (market_of self.now) entry }
    {
        matches!(entry, Entry::OfBasket(basket) if self.broken(basket))
    }

    // What is wrong with one more entry: the first fault that it has.
    pub(super) fn check(&self, entry: Entry) -> Result<(), Fault>
        ensures { MatchResult result (λ _. fault (market_of self.now) entry ≡ None) (λ f. fault (market_of self.now) entry ≡ Some f) }
    {
        if self.absent(entry) {
            return Err(Fault::Absent);
        }
        if self.full(entry) {
            return Err(Fault::TableFull);
        }
        if self.overlapping(entry) {
            return Err(Fault::WindowOverlaps);
        }
        if self.breaking(entry) {
            return Err(Fault::LoopBroken);
        }
        Ok(())
    }
}
