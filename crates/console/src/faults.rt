// Why a call of a console is refused.
ghost use Rattle.std.specs.Prelude.{◌≡◌};
ghost use Rattle.console.specs.Faults.{code, from_clearing, from_bound};

#[derive(Clone, Copy, Debug, PartialEq, Eq)]
pub enum Fault {
    // a fault of a clearing file, or a rule that it breaks
    Clearing(clearing::Fault),
    // a fault of a tree or a price file
    Tree(bound::Fault),
    // the panel's buffer has fewer than 64 bytes
    BufferTooShort,
}

// What is wrong, and where. Each crate that refuses has such a struct of its own: between two instances of one generic
// struct of a crate below, no crate above could write the `From` that `?` needs.
#[derive(Clone, Copy, Debug, PartialEq, Eq)]
pub struct Refusal {
    pub fault: Fault,
    pub place: usize,
}

// Lent memory that is too short is refused at this layer, as a clearing's scratch is.
const LAYER: u8 = 5;

impl Fault {
    // By cases and not by the variant's own number, since a fault from below has its number and its layer there.
    pub fn number(self) -> u8
        ensures { result ≡ (code self).number }
    {
        match self {
            Fault::Clearing(fault) => fault.number(),
            Fault::Tree(fault) => fault.number(),
            Fault::BufferTooShort => 26,
        }
    }

    pub fn layer(self) -> u8
        ensures { result ≡ (code self).layer }
    {
        match self {
            Fault::Clearing(fault) => fault.layer(),
            Fault::Tree(fault) => fault.layer(),
            Fault::BufferTooShort => LAYER,
        }
    }
}

// Refusals from below keep their fault and their place.
impl From<clearing::Refusal> for Refusal {
    ghost from_gives = { λ e r. r ≡ from_clearing e };

    fn from(e: clearing::Refusal) -> Refusal {
        Refusal {
            fault: Fault::Clearing(e.fault),
            place: e.place,
        }
    }
}

impl From<bound::Refusal> for Refusal {
    ghost from_gives = { λ e r. r ≡ from_bound e };

    fn from(e: bound::Refusal) -> Refusal {
        Refusal {
            fault: Fault::Tree(e.fault),
            place: e.place,
        }
    }
}
