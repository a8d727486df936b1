// The steps of a tree file, read one by one.
ghost use Rattle.std.specs.Prelude.{◌≡◌, ◌<◌, ◌≤◌, IfErr, IfOk, OnOk, length, nat_le};
ghost use Rattle.records.specs.declared.Fault.TheVariants.{TooLong};
ghost use Rattle.bound.specs.declared.faults.Fault.TheVariants.{Record};
ghost use Rattle.records.specs.Readers.{file_of, place_of};
ghost use Rattle.bound.specs.Steps.{step_at};
ghost use Rattle.bound.specs.Checks.{Gives, OverTree};

use crate::faults::{Fault, Refusal};
use records::{Kind, Reader};

const SPLIT: u8 = 8;

const ROW: u8 = 9;

const CLOSE: u8 = 10;

// The records of a tree file: a split's variable; a row and its weight; the close of a leaf.
const TREE_KINDS: [Kind; 3] = [
    Kind {
        number: SPLIT,
        fields: 1,
    },
    Kind {
        number: ROW,
        fields: 2,
    },
    Kind {
        number: CLOSE,
        fields: 0,
    },
];

// What a record of a tree says.
#[derive(Clone, Copy)]
pub(crate) enum Step {
    Split(i64),
    Row { row: i64, weight: i64 },
    Close,
}

// A reader of the records of a tree, within its file.
#[derive(Drop)]
pub(crate) struct TreeReader<'a> {
    reader: Reader<'a>,
    ghost over: { OverTree reader },
}

impl<'a> TreeReader<'a> {
    // A reader at the first step of the file.
    pub(crate) fn open(file: &'a [u8]) -> Result<TreeReader<'a>, Refusal>
        ensures opened { IfOk result (λ r. (length file.now ≤ 65535) × (file_of r.reader ≡ file.now) × (place_of r.reader ≡ 0)) }
        ensures refused { IfErr result (λ e. (65535 < length file.now) × (e ≡ record { fault = Record TooLong; place = 0 })) }
    {
        let reader = Reader::open(file, &TREE_KINDS)?;
        Ok(TreeReader { reader })
    }

    pub(crate) fn place(&self) -> usize
        ensures { result ≡ place_of self.now.reader }
    {
        self.reader.place()
    }

    pub(crate) fn at_end(&self) -> bool
        ensures { result ≡ nat_le (length (file_of self.now.reader)) (place_of self.now.reader) }
    {
        self.reader.at_end()
    }

    // The step at the reader's place.
    pub(crate) fn next_step(&mut self) -> Result<Step, Refusal>
        ensures file { file_of self.new.reader ≡ file_of self.old.reader }
        ensures gives { Gives (step_at (file_of self.old.reader) (place_of self.old.reader)) result (place_of self.new.reader) }
        ensures on { OnOk result (place_of self.old.reader < place_of self.new.reader) }
    {
        let place = self.reader.place();
        let Some(record) = self.reader.next()? else {
            return Err(Fault::NotOneTree.at(place));
        };
        Ok(match record.kind {
            SPLIT => Step::Split(record.field(0)),
            ROW => Step::Row {
                row: record.field(0),
                weight: record.field(1),
            },
            // the reader hands out no other kind
            _ => Step::Close,
        })
    }
}
