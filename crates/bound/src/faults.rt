// Why a tree, or a value to hold, is refused.
ghost use Rattle.std.specs.Prelude.{◌≡◌, Some};
ghost use Rattle.bound.specs.Faults.{code, from_records, refusal_text};

use std::fmt;

#[derive(Clone, Copy, Debug, PartialEq, Eq)]
pub enum Fault {
    // a fault of the file's records
    Record(records::Fault),
    // a weight or a value past its limits
    OutsideLimits,
    // a variable or a row beyond the counts
    Absent,
    // the rows of a leaf do not rise
    NotRising,
    // a split that is not allowed, or that follows a weight
    SplitBarred,
    // a 65th split on a path, or a 65th held variable
    TooDeep,
    // the file is not one whole tree
    NotOneTree,
    // a product or a running sum past the limit
    TooLarge,
}

// What is wrong, and where: the offset of a record in the file, or a variable.
// Each crate that refuses has such a struct of its own: between two instances of one `Refusal<F>` of a crate below,
// the orphan rule leaves a crate above no `From`, and so no `?`.
#[derive(Clone, Copy, Debug, PartialEq, Eq)]
pub struct Refusal {
    pub fault: Fault,
    pub place: usize,
}

// The layers of numbers and of trees.
const ENTRIES: u8 = 2;

const TREES: u8 = 4;

impl Fault {
    // The refusal for this fault at this place.
    pub(crate) fn at(self, place: usize) -> Refusal
        ensures { result ≡ record { fault = self; place = place } }
    {
        Refusal { fault: self, place }
    }

    // By cases: a fault of the records has its number there.
    pub fn number(self) -> u8
        ensures { result ≡ (code self).number }
    {
        match self {
            Fault::Record(fault) => fault.number(),
            Fault::OutsideLimits => 6,
            Fault::Absent => 7,
            Fault::NotRising => 11,
            Fault::SplitBarred => 22,
            Fault::TooDeep => 23,
            Fault::NotOneTree => 24,
            Fault::TooLarge => 25,
        }
    }

    pub fn layer(self) -> u8
        ensures { result ≡ (code self).layer }
    {
        match self {
            Fault::Record(fault) => fault.layer(),
            Fault::OutsideLimits | Fault::Absent | Fault::NotRising => ENTRIES,
            Fault::SplitBarred | Fault::TooDeep | Fault::NotOneTree | Fault::TooLarge => TREES,
        }
    }
}

// The fault's number, and the place.
impl fmt::Display for Refusal {
    ghost output = { λ e. Some (refusal_text e) };

    fn fmt<W: fmt::Write>(&self, f: &mut fmt::Formatter<W>) -> fmt::Result {
        let number = self.fault.number();
        let place = self.place;
        write!(f, "{number} at {place}")
    }
}

// A refusal of the file's records keeps its fault and its place.
impl From<records::Refusal> for Refusal {
    ghost from_gives = { λ e r. r ≡ from_records e };

    fn from(e: records::Refusal) -> Refusal {
        Fault::Record(e.fault).at(e.place)
    }
}
