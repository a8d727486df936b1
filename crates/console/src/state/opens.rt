// A book becomes a console.
ghost use Rattle.std.specs.Prelude.{◌≡◌};
ghost use Rattle.market.specs.View.{market_of};
ghost use Rattle.console.specs.Standing.{opening};
ghost use Rattle.console.specs.View.{standing};

use crate::held::Held;
use crate::state::Console;
use market::Book;

impl Console {
    // Closes the book: what it becomes takes no more entries. A new console holds the empty clearing at prices 0.
    pub fn closing(book: Book) -> Console
        ensures { standing result ≡ opening (market_of book) }
    {
        Console {
            market: book.close(),
            held: Held::default(),
            bound: None,
            price_bound: None,
        }
    }
}
