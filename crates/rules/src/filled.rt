// A closed market and the numbers of a clearing of it: parts at their variable, prices at 256 + line.
ghost use Rattle.rules.specs.Scratch.{Filled};

use market::ClosedMarket;

// All of an order's parts.
pub(crate) const FULL: i32 = 10_000;

// Parts are from 0 to 10,000, prices from -99,999 to 99,999.
#[derive(Clone, Copy)]
pub struct Clearing<'a> {
    pub(crate) market: &'a ClosedMarket,
    pub(crate) numbers: &'a [i32],
    ghost filled: { Filled numbers.now },
}
