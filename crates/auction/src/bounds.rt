// What a tree file proves of an auction.
ghost use Rattle.std.specs.Prelude.{◌≡◌, ℕ, ◌<◌, IfOk};
ghost use Rattle.bound.specs.Checks.{checked};
ghost use Rattle.market.specs.View.{closed_of};
ghost use Rattle.rules.specs.Clearings.{Parts};
ghost use Rattle.rules.specs.Scratch.{parts_in};
ghost use Rattle.auction.specs.Acceptance.{acceptance};
ghost use Rattle.auction.specs.Pricing.{pricing};
ghost use Rattle.auction.specs.Theorems.{BoundsWelfare, BoundsSaving};

use crate::acceptance::AcceptanceProgramme;
use crate::pricing::PriceProgramme;
use bound::{Refusal, check};
use market::ClosedMarket;

// The bound that a tree file proves of the welfare of a market, or why it is refused.
pub fn welfare_bound(market: &ClosedMarket, file: &[u8]) -> Result<i64, Refusal>
    ensures exact { result ≡ checked (acceptance (closed_of market.now)) file.now }
    ensures bounds { IfOk result (λ b. BoundsWelfare (closed_of market.now) b) }
{
    check(&AcceptanceProgramme::over(market), file)
}

// The bound that a price file proves of what can be saved on the parts of a clearing, or why it is refused.
pub fn saving_bound<'a>(
    market: &'a ClosedMarket,
    parts: &'a [i32],
    file: &[u8],
) -> Result<i64, Refusal>
    requires { (v : ℕ) → v < 256 → Parts 10000 (parts_in parts.now v) }
    ensures exact { result ≡ checked (pricing (closed_of market.now) (parts_in parts.now)) file.now }
    ensures bounds { IfOk result (λ b. BoundsSaving (closed_of market.now) (parts_in parts.now) b) }
{
    check(&PriceProgramme::over(market, parts), file)
}
