// The records of a file: a byte of kind, two bytes of bit map, and a field for each bit that stands.
// Which kinds a file may hold is told by whoever opens it.
#![tactic(auto)]

ghost use Rattle.std.specs.Prelude.{◌≤◌, length};

mod faults;
mod fields;
mod heads;
pub mod laws;
mod maps;
mod positions;
mod readers;

use maps::BitMap;

// What can be wrong with a file as a file of records. A fault is known outside by its number.
#[derive(Clone, Copy, Debug, PartialEq, Eq)]
pub enum Fault {
    TooLong = 1,
    CutShort = 2,
    UnknownKind = 3,
    BitBeyond = 4,
    ZeroField = 5,
}

// What is wrong, and the offset in the file of the record that it is wrong with.
// Each crate above has a refusal of its own: with one struct over all types of fault,
// no crate above could write the `From` by which `?` carries a refusal up.
#[derive(Clone, Copy, Debug, PartialEq, Eq)]
pub struct Refusal {
    pub fault: Fault,
    pub place: usize,
}

// A kind of record, and how many fields it has.
// A number and no enum: the kinds of a file are a slice that its opener lends, as its format has them.
#[derive(Clone, Copy, Debug, PartialEq, Eq)]
pub struct Kind {
    pub number: u8,
    pub fields: u8,
}

// A record, as the part of the file that holds its fields.
#[derive(Clone, Copy)]
pub struct Record<'a> {
    pub kind: u8,
    pub place: usize,
    map: BitMap,
    bytes: &'a [u8],
}

// Reads the records of a file one by one, and stands within the file.
// No `Iterator`: `next` promises to stay at a refusal, so the items would have no end for a `for` to count on.
#[derive(Drop)]
pub struct Reader<'a> {
    file: &'a [u8],
    kinds: &'a [Kind],
    place: usize,
    ghost within: { place ≤ length file.now },
}
