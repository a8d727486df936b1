// What each fault is called, and how a refusal reads.
ghost use Rattle.std.specs.Prelude.{◌≡◌, Some};
ghost use Rattle.records.specs.Faults.{code, refusal_text};

use super::{Fault, Refusal};
use std::fmt;

// The lowest layer: files as files of records. A number, since each crate above has layers of its own.
const FILES: u8 = 1;

impl Fault {
    pub fn number(self) -> u8
        ensures { result ≡ (code self).number }
    {
        self as u8
    }

    pub fn layer(self) -> u8
        ensures { result ≡ (code self).layer }
    {
        FILES
    }
}

// The fault's number and the place, as `6 at 12`.
impl fmt::Display for Refusal {
    ghost output = { λ r. Some (refusal_text r) };

    fn fmt<W: fmt::Write>(&self, f: &mut fmt::Formatter<W>) -> fmt::Result {
        write!(f, "{} at {}", self.fault.number(), self.place)
    }
}
