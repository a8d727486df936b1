// Why a clearing file is refused.
ghost use Rattle.std.specs.Prelude.{◌≡◌, Some};
ghost use Rattle.clearing.specs.Faults.{code, from_records, from_rules, refusal_text};

use rules::{Breach, Rule};
use std::fmt;

// The layer of marks, next above that of files, and the layer of calls, above the rules and the bound.
const MARKS: u8 = 2;

const CALLS: u8 = 5;

#[derive(Clone, Copy, Debug, PartialEq, Eq)]
pub enum Fault {
    // a fault of the file's records
    Record(records::Fault),
    // the variables, or the lines, do not rise
    NotRising,
    // parts or a price past their limits
    OutsideLimits,
    // a variable or a line that names nothing, or a price below the service's floor
    Absent,
    // a rule that the clearing breaks
    Broken(Rule),
    // the scratch has fewer than 448 numbers
    ScratchTooShort,
}

// What is wrong, and where. Each crate that refuses has a refusal of its own: with one struct over all types of fault, no
// crate above could write the `From` by which `?` carries a refusal up.
#[derive(Clone, Copy, Debug, PartialEq, Eq)]
pub struct Refusal {
    pub fault: Fault,
    pub place: usize,
}

impl Fault {
    // The refusal for this fault at this place.
    pub(crate) fn at(self, place: usize) -> Refusal
        ensures { result ≡ record { fault = self; place = place } }
    {
        Refusal { fault: self, place }
    }

    // By cases and not by the variant's own number, since a fault of the records or the rules has its number there.
    pub fn number(self) -> u8
        ensures { result ≡ (code self).number }
    {
        match self {
            Fault::Record(fault) => fault.number(),
            Fault::NotRising => 11,
            Fault::OutsideLimits => 6,
            Fault::Absent => 7,
            Fault::Broken(rule) => rule.number(),
            Fault::ScratchTooShort => 26,
        }
    }

    pub fn layer(self) -> u8
        ensures { result ≡ (code self).layer }
    {
        match self {
            Fault::Record(fault) => fault.layer(),
            Fault::NotRising | Fault::OutsideLimits | Fault::Absent => MARKS,
            Fault::Broken(rule) => rule.layer(),
            Fault::ScratchTooShort => CALLS,
        }
    }
}

// A refusal of the file's records keeps its fault and its place.
impl From<records::Refusal> for Refusal {
    ghost from_gives = { λ e r. r ≡ from_records e };

    fn from(e: records::Refusal) -> Refusal {
        Refusal {
            fault: Fault::Record(e.fault),
            place: e.place,
        }
    }
}

// A broken rule is refused where it is broken.
impl From<Breach> for Refusal {
    ghost from_gives = { λ breach r. r ≡ from_rules breach };

    fn from(breach: Breach) -> Refusal {
        Refusal {
            fault: Fault::Broken(breach.rule),
            place: breach.place,
        }
    }
}

// The fault's number, its layer and the place, as `20 (layer 3) at 65`.
impl fmt::Display for Refusal {
    ghost output = { λ r. Some (refusal_text r) };

    fn fmt<W: fmt::Write>(&self, f: &mut fmt::Formatter<W>) -> fmt::Result {
        let number = self.fault.number();
        let layer = self.fault.layer();
        let place = self.place;
        write!(f, "{number} (layer {layer}) at {place}")
    }
}
