// The law of every console.
ghost use Rattle.std.specs.Prelude.{◌≡◌, is_some};
ghost use Rattle.console.specs.Law.{GapCovers, PriceGapCovers};
ghost use Rattle.console.specs.Panel.{ShownNotBelow};
ghost use Rattle.console.specs.Standing.{gap};
ghost use Rattle.console.specs.View.{standing};

use crate::state::Console;

impl Console {
    // Whatever files this console was handed: a gap that stands covers every rival clearing over any denominator, a price
    // gap that stands covers every price list for the held parts, and the pence that are shown are not below them. Answers
    // whether a gap stands.
    pub fn stands(&self) -> bool
        ensures gaps { GapCovers (standing self.now) }
        ensures prices { PriceGapCovers (standing self.now) }
        ensures shown { ShownNotBelow (standing self.now) }
        ensures says { result ≡ is_some (gap (standing self.now)) }
    {
        self.bound.is_some()
    }
}
