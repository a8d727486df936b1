// The console of a closed market. Whatever it was handed, its bounds stand over every rival, and the clearing that it
// holds keeps every rule.
ghost use Rattle.std.specs.Prelude.{◌≡◌, ℕ, ◌<◌, true, pos, int_le};
ghost use Rattle.market.specs.View.{closed_of};
ghost use Rattle.console.specs.Clears.{Kept};
ghost use Rattle.console.specs.Law.{CoversRivals, CoversPrices, sized};

use crate::held::Held;
use market::ClosedMarket;

mod answers;
mod files;
mod law;
mod opens;
mod panel;

#[derive(Drop)]
pub struct Console {
    market: ClosedMarket,
    held: Held,
    bound: Option<i64>,
    price_bound: Option<i64>,
    ghost rivals: { CoversRivals (closed_of market) bound },
    ghost prices: { CoversPrices (closed_of market) held price_bound },
    ghost kept: { ∥ Kept (closed_of market) held ∥₁ },
    ghost fair: { (v : ℕ) → v < 256 → sized held v ≡ true },
    ghost cheap: { int_le held.cost (pos 5000000000000000) ≡ true },
}
