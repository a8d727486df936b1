// Opening a book asks for all the memory that its entries will ever need; closing it uses it up.
ghost use Rattle.std.specs.Prelude.{◌≡◌, IfOk};
ghost use Rattle.market.specs.Lawful.{Lawful};
ghost use Rattle.market.specs.Market.{empty};
ghost use Rattle.market.specs.View.{market_of, closed_of};

use super::{Book, MOST_BASKETS, MOST_BUYS, MOST_EXTRAS, MOST_WINDOWS};
use crate::closed::ClosedMarket;
use std::alloc::{AllocError, Global};

impl Book {
    // A book without entries, or want of memory.
    pub fn open(heap: Global) -> Result<Book, AllocError>
        ensures { IfOk result (λ b. market_of b ≡ empty) }
    {
        let windows = Vec::with_capacity(heap, MOST_WINDOWS)?;
        let buys = Vec::with_capacity(heap, MOST_BUYS)?;
        let baskets = Vec::with_capacity(heap, MOST_BASKETS)?;
        let extras = Vec::with_capacity(heap, MOST_EXTRAS)?;
        Ok(Book {
            windows,
            buys,
            baskets,
            extras,
        })
    }

    // The market of the book's entries. It cannot be refused.
    pub fn close(self) -> ClosedMarket
        ensures entries { closed_of result ≡ market_of self }
        ensures lawful { Lawful (closed_of result) }
    {
        ClosedMarket { book: self }
    }
}
