// What can be wrong with a market file, and where.
use records::Fault as RecordFault;

mod codes;

// A fault of the file as a file of records, or of an entry.
#[derive(Clone, Copy, Debug, PartialEq, Eq)]
pub enum Fault {
    Record(RecordFault),
    OutsideLimits,
    Absent,
    TableFull,
    WindowOverlaps,
    LoopBroken,
}

// What is wrong, and the offset in the file of the record that it is wrong with. Each crate that refuses has such a struct:
// a generic one could not be carried up by `?`, since a crate above may not write `From` for two instances of a struct below it.
#[derive(Clone, Copy, Debug, PartialEq, Eq)]
pub struct Refusal {
    pub fault: Fault,
    pub place: usize,
}
