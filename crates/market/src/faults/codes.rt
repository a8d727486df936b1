// What each fault is called.
ghost use Rattle.std.specs.Prelude.{◌≡◌, Some};
ghost use Rattle.market.specs.declared.faults.Fault.TheVariants.{Record};
ghost use Rattle.market.specs.Faults.{code, refusal_text};

use super::{Fault, Refusal};
use records::Refusal as RecordRefusal;
use std::fmt;

// The layer of entries, next above that of files.
const ENTRIES: u8 = 2;

impl Fault {
    // By cases: a fault of the records has its number there.
    pub fn number(self) -> u8
        ensures { result ≡ (code self).number }
    {
        match self {
            Fault::Record(fault) => fault.number(),
            Fault::OutsideLimits => 6,
            Fault::Absent => 7,
            Fault::TableFull => 8,
            Fault::WindowOverlaps => 9,
            Fault::LoopBroken => 10,
        }
    }

    pub fn layer(self) -> u8
        ensures { result ≡ (code self).layer }
    {
        match self {
            Fault::Record(fault) => fault.layer(),
            Fault::OutsideLimits
            | Fault::Absent
            | Fault::TableFull
            | Fault::WindowOverlaps
            | Fault::LoopBroken => ENTRIES,
        }
    }
}

// A refusal of the file's records is carried up unaltered.
impl From<RecordRefusal> for Refusal {
    ghost from_gives = { λ e r. r ≡ record { fault = Record e.fault; place = e.place } };

    fn from(refusal: RecordRefusal) -> Refusal {
        Refusal {
            fault: Fault::Record(refusal.fault),
            place: refusal.place,
        }
    }
}

// A refusal in print, as `6 at 12`.
impl fmt::Display for Refusal {
    ghost output = { λ r. Some (refusal_text r) };

    fn fmt<W: fmt::Write>(&self, f: &mut fmt::Formatter<W>) -> fmt::Result {
        let number = self.fault.number();
        let place = self.place;
        write!(f, "{number} at {place}")
    }
}
