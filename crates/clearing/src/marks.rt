// What a record of a clearing file says, and what is wrong with it.
ghost use Rattle.std.specs.Prelude.{◌≡◌, true, None, Some, MatchResult, slice_set};
ghost use Rattle.market.specs.View.{closed_of};
ghost use Rattle.records.specs.Read.{content};
ghost use Rattle.clearing.specs.Marks.{mark_of, rises, in_limits, is_order, is_line, is_named, fits, place_of, amount_of};
ghost use Rattle.clearing.specs.Files.{fault_of};

use crate::faults::Fault;
use crate::files::NUMBERS;
use market::{ClosedMarket, Order, PRODUCTS, VARIABLES};
use records::{Kind, Record};

// A record of a variable and its parts, and one of a line and its price.
const PARTS: u8 = 6;

const PRICE: u8 = 7;

// All of an order's parts, and the greatest price.
const FULL: i64 = 10_000;

const HIGHEST: i64 = 99_999;

// The kinds of a clearing file's records.
pub(crate) const KINDS: [Kind; 2] = [
    Kind {
        number: PARTS,
        fields: 2,
    },
    Kind {
        number: PRICE,
        fields: 2,
    },
];

// An order's parts, or a line's price, as the file has them.
#[derive(Clone, Copy, Debug, PartialEq, Eq)]
pub enum Mark {
    Parts { variable: i64, parts: i64 },
    Price { line: i64, price: i64 },
}

impl Mark {
    // What a record of one of the two kinds says.
    pub(crate) fn of(given: &Record) -> Mark
        ensures { result ≡ mark_of (content given.now) }
    {
        let number = given.field(0);
        let amount = given.field(1);
        match given.kind {
            PARTS => Mark::Parts {
                variable: number,
                parts: amount,
            },
            // the reader hands out no other kind
            _ => Mark::Price {
                line: number,
                price: amount,
            },
        }
    }

    // Whether it may stand after the one before it: variables rise, then lines rise. It is no derived order, since the
    // amounts do not count.
    fn rises_after(self, last: Option<Mark>) -> bool
        ensures { result ≡ rises last self }
    {
        match (last, self) {
            (None, _) => true,
            (Some(Mark::Parts { variable: v, .. }), Mark::Parts { variable: w, .. }) => v < w,
            (Some(Mark::Parts { .. }), Mark::Price { .. }) => true,
            (Some(Mark::Price { .. }), Mark::Parts { .. }) => false,
            (Some(Mark::Price { line: k, .. }), Mark::Price { line: l, .. }) => k < l,
        }
    }

    // Whether the parts or the price are within their limits.
    fn within_limits(self) -> bool
        ensures { result ≡ in_limits self }
    {
        match self {
            Mark::Parts { parts, .. } => (1..=FULL).contains(&parts),
            Mark::Price { price, .. } => price != 0 && (-HIGHEST..=HIGHEST).contains(&price),
        }
    }

    // Whether the variable is that of an entered order, or the line has a window, a product and a floor below the price.
    fn names(self, market: &ClosedMarket) -> bool
        ensures { result ≡ is_named (closed_of market.now) self }
    {
        match self {
            Mark::Parts { variable, .. } => {
                usize::try_from(variable).is_ok_and(|variable| is_order(market, variable))
            }
            Mark::Price { line, price } => {
                usize::try_from(line).is_ok_and(|line| is_line(market, line, price))
            }
        }
    }

    // Whether it is in order after the one before it, and what is wrong with it if not.
    pub(crate) fn check(self, market: &ClosedMarket, last: Option<Mark>) -> Result<(), Fault>
        ensures { MatchResult result (λ _. fault_of (closed_of market.now) last self ≡ None) (λ f. fault_of (closed_of market.now) last self ≡ Some f) }
    {
        if !self.rises_after(last) {
            return Err(Fault::NotRising);
        }
        if !self.within_limits() {
            return Err(Fault::OutsideLimits);
        }
        if !self.names(market) {
            return Err(Fault::Absent);
        }
        Ok(())
    }

    // Puts its amount at its place: parts at their variable, prices at their line behind all variables. The casts are proved to
    // lose nothing; `try_from` would have an error that cannot come.
    pub(crate) fn put(self, numbers: &mut [i32; NUMBERS])
        requires { fits self ≡ true }
        ensures { numbers.new ≡ slice_set numbers.old (place_of self) (amount_of self) }
    {
        match self {
            Mark::Parts { variable, parts } => numbers[variable as usize] = parts as i32,
            Mark::Price { line, price } => numbers[VARIABLES + line as usize] = price as i32,
        }
    }
}

fn is_order(market: &ClosedMarket, variable: usize) -> bool
    ensures { result ≡ is_order (closed_of market.now) variable }
{
    Order::of(variable).is_some_and(|order| market.has(order))
}

// The three tests of its definition, in one expression: a market that lent a line's service as an `Option` would part them.
fn is_line(market: &ClosedMarket, line: usize, price: i64) -> bool
    ensures { result ≡ is_line (closed_of market.now) line price }
{
    let service = market.window(line / PRODUCTS).service;
    line / PRODUCTS < market.window_count()
        && line % PRODUCTS < service.products()
        && i64::from(service.floor()) <= price
}
