// What can be wrong with a clearing.
ghost use Rattle.std.specs.Prelude.{◌≡◌};
ghost use Rattle.rules.specs.Faults.{code};

// The layer of the rules. A number, since the crates below and above have layers of their own.
const RULES_LAYER: u8 = 3;

// The rules of a clearing, in the order in which they are judged.
#[derive(Clone, Copy, Debug, PartialEq, Eq)]
pub enum Rule {
    WholeParents = 12,
    ChildrenUnderParents = 13,
    SubstitutesUnderParents = 14,
    Families = 15,
    Loops = 16,
    Units = 17,
    Balance = 18,
    ExtraSurplus = 19,
    BasketSurplus = 20,
    BuyPrices = 21,
}

// The rule that is broken, and where: the number of a variable, a family or a line. A struct of its own beside the other
// crates' refusals: `?` would need `From` between two instances of a shared one, which no crate above may write.
#[derive(Clone, Copy, Debug, PartialEq, Eq)]
pub struct Breach {
    pub rule: Rule,
    pub place: usize,
}

impl Rule {
    pub fn number(self) -> u8
        ensures { result ≡ (code self).number }
    {
        self as u8
    }

    pub fn layer(self) -> u8
        ensures { result ≡ (code self).layer }
    {
        RULES_LAYER
    }
}
