// The price programme of a closed market and the parts of a held clearing.
ghost use Rattle.std.specs.Prelude.{ℕ, ◌<◌};
ghost use Rattle.rules.specs.Clearings.{Parts};
ghost use Rattle.rules.specs.Scratch.{parts_in};

use market::ClosedMarket;

mod columns;
mod places;
mod sums;
mod table;

// Its points are the price lists that keep the price rules for these parts: those of buy i at i, of the parent of basket b at
// 64 + b, of child or substitute k at 160 + k.
#[derive(Drop)]
pub struct PriceProgramme<'a> {
    pub(crate) market: &'a ClosedMarket,
    pub(crate) parts: &'a [i32],
    ghost held: { (v : ℕ) → v < 256 → Parts 10000 (parts_in parts.now v) },
}
