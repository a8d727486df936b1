// The files that a console judges.
ghost use Rattle.std.specs.Prelude.{◌≡◌, Some};
ghost use Rattle.bound.specs.Checks.{checked};
ghost use Rattle.auction.specs.Acceptance.{acceptance};
ghost use Rattle.auction.specs.Pricing.{pricing};
ghost use Rattle.console.specs.Standing.{parts_of};
ghost use Rattle.console.specs.Steps.{accepted, lower, bounded, priced, told_bound, Cleared};
ghost use Rattle.console.specs.View.{standing};

use crate::faults::Refusal;
use crate::held::Held;
use crate::state::Console;
use auction::{saving_bound, welfare_bound};
use clearing::judge_file;

// The lesser of a bound that may be absent and another.
fn lesser(bound: Option<i64>, other: i64) -> i64
    ensures { Some result ≡ lower bound other }
{
    bound.map_or(other, |least| least.min(other))
}

impl Console {
    // Judges a clearing in the lent scratch; it is held if it is of greater welfare, or of equal welfare at less cost.
    pub fn clearing(&mut self, file: &[u8], scratch: &mut [i32]) -> Result<i64, Refusal>
        ensures { Cleared (standing self.old) file.now scratch.old result scratch.new (standing self.new) }
    {
        let worth = judge_file(&self.market, file, scratch)?;
        let held = Held {
            numbers: *scratch.first_chunk().unwrap(),
            welfare: worth.welfare,
            cost: worth.cost,
        };
        if held.is_better(&self.held) {
            self.held = held;
            self.price_bound = None;
        }
        Ok(worth.welfare)
    }

    // Judges a tree over the acceptance programme; the smaller bound is kept.
    pub fn tree(&mut self, file: &[u8]) -> Result<i64, Refusal>
        ensures answer { result ≡ told_bound (checked (acceptance (standing self.old).market) file.now) }
        ensures after { standing self.new ≡ bounded (standing self.old) (accepted (checked (acceptance (standing self.old).market) file.now)) }
    {
        let bound = welfare_bound(&self.market, file)?;
        self.bound = Some(lesser(self.bound, bound));
        Ok(bound)
    }

    // Judges a price file over the price programme of the held clearing; the smaller bound is kept.
    pub fn price(&mut self, file: &[u8]) -> Result<i64, Refusal>
        ensures answer { result ≡ told_bound (checked (pricing (standing self.old).market (parts_of (standing self.old).held)) file.now) }
        ensures after { standing self.new ≡ priced (standing self.old) (accepted (checked (pricing (standing self.old).market (parts_of (standing self.old).held)) file.now)) }
    {
        let bound = saving_bound(&self.market, &self.held.numbers, file)?;
        self.price_bound = Some(lesser(self.price_bound, bound));
        Ok(bound)
    }
}
