// The verdict on a clearing: the first rule that it breaks, at its lowest place.
ghost use Rattle.numbers.specs.Searches.{Lowest};
ghost use Rattle.market.specs.View.{closed_of};
ghost use Rattle.rules.specs.Broken.{Broken, Verdict, UnbrokenIsKept};
ghost use Rattle.rules.specs.Scratch.{Filled, parts_in, prices_in};
ghost use Rattle.rules.specs.Views.{market_of, parts_of, prices_of};

use crate::faults::{Breach, Rule};
use crate::filled::Clearing;
use market::ClosedMarket;

// The rules in the order in which they are judged.
const RULES: [Rule; 10] = [
    Rule::WholeParents,
    Rule::ChildrenUnderParents,
    Rule::SubstitutesUnderParents,
    Rule::Families,
    Rule::Loops,
    Rule::Units,
    Rule::Balance,
    Rule::ExtraSurplus,
    Rule::BasketSurplus,
    Rule::BuyPrices,
];

// The verdict on the clearing of a market that the numbers give.
pub fn judge(m: &ClosedMarket, s: &[i32]) -> Result<(), Breach>
    requires { Filled s.now }
    ensures { Verdict (closed_of m.now) (parts_in s.now) (prices_in s.now) result }
{
    Clearing::over(m, s).judge()
}

// A clearing that breaks no rule keeps them all, and the other way round.
pub fn unbroken_is_kept()
    ensures { UnbrokenIsKept }
{}

impl<'a> Clearing<'a> {
    // The lowest place at which a rule is broken. A match, since an array of the searches would be a table of functions.
    fn lowest_broken(&self, rule: Rule) -> Option<usize>
        ensures { Lowest (Broken (market_of self.now) (parts_of self.now) (prices_of self.now) rule) result }
    {
        match rule {
            Rule::WholeParents => self.split_parent(),
            Rule::ChildrenUnderParents => self.child_above(),
            Rule::SubstitutesUnderParents => self.substitutes_above(),
            Rule::Families => self.family_overfull(),
            Rule::Loops => self.loop_uneven(),
            Rule::Units => self.unit_twice(),
            Rule::Balance => self.line_short(),
            Rule::ExtraSurplus => self.extra_loses(),
            Rule::BasketSurplus => self.basket_loses(),
            Rule::BuyPrices => self.buy_overcharged(),
        }
    }

    // Accepted exactly when every rule is kept; else the first broken rule, at its lowest place.
    pub fn judge(&self) -> Result<(), Breach>
        ensures { Verdict (market_of self.now) (parts_of self.now) (prices_of self.now) result }
    {
        for rule in RULES {
            if let Some(place) = self.lowest_broken(rule) {
                return Err(Breach { rule, place });
            }
        }
        Ok(())
    }
}
