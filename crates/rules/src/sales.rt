// What a parent, a child or a substitute sells: all three alike.
ghost use Rattle.std.specs.Prelude.{◌<◌};
ghost use Rattle.numbers.specs.Sums.{Within};
ghost use Rattle.rules.specs.Sizes.{Small};

use market::PRODUCTS;

// Its quantity of each product, in a window and at a price, and the parts of it that are sold.
#[derive(Clone, Copy)]
pub(crate) struct Sale {
    pub(crate) window: u8,
    pub(crate) quantities: [u16; PRODUCTS],
    pub(crate) price: i32,
    pub(crate) parts: i32,
    ghost on_a_line: { window < 32 },
    ghost small: { Small quantities },
    ghost priced: { Within 99999 price },
    ghost shared: { Within 10000 parts },
}
