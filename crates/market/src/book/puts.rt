// How a book takes one more entry.
ghost use Rattle.std.specs.Prelude.{◌≡◌, true, None};
ghost use Rattle.market.specs.Lines.{entry_ok};
ghost use Rattle.market.specs.Market.{put};
ghost use Rattle.market.specs.Tests.{fault};
ghost use Rattle.market.specs.View.{market_of};

use super::Book;
use crate::entries::Entry;

impl Book {
    // Puts an entry after the others. Nothing is wrong with it, so its table has room.
    pub(super) fn put(&mut self, entry: Entry)
        requires { (entry_ok entry ≡ true) × (fault (market_of self.old) entry ≡ None) }
        ensures { market_of self.new ≡ put (market_of self.old) entry }
    {
        match entry {
            Entry::OfWindow(window) => self.windows.push_reserved(window),
            Entry::OfBuy(buy) => self.buys.push_reserved(buy),
            Entry::OfBasket(basket) => self.baskets.push_reserved(basket),
            Entry::OfExtra(extra) => self.extras.push_reserved(extra),
        }
    }
}
