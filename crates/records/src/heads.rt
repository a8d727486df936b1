// The record that some bytes begin with, and its fields.
ghost use Rattle.std.specs.Prelude.{◌≡◌, pos, slice_index_or};
ghost use Rattle.records.specs.Read.{field_count, content};
ghost use Rattle.records.specs.Taken.{Head};

use super::fields::{Fields, field_width};
use super::maps::BitMap;
use super::{Fault, Kind, Record};

impl<'a> Record<'a> {
    // The field of this bit, or 0 where the record has none: a field that stands is never 0.
    pub fn field(&self, bit: u8) -> i64
        ensures { result ≡ slice_index_or (content self.now).fields bit (pos 0) }
    {
        if !self.map.stands(bit) {
            return 0;
        }
        let start = self.map.ones_below(bit) * field_width(self.kind);
        let Some(bytes) = self.bytes.get(start..) else {
            return 0;
        };
        let mut fields = Fields {
            kind: self.kind,
            bytes,
        };
        let Ok(value) = fields.take() else {
            return 0;
        };
        value
    }
}

// How many fields a record of this kind has, where the kind is among them: the first entry counts.
fn field_count(kinds: &[Kind], number: u8) -> Option<u8>
    ensures { result ≡ field_count kinds.now number }
{
    kinds
        .iter()
        .find(|kind| kind.number == number)
        .map(|kind| kind.fields)
}

// The record that `left` begins with, which stands at `place` in its file.
// A bit beyond the kind's fields counts in the length, so a record may be cut short for its sake.
pub(super) fn head<'a>(kinds: &[Kind], place: usize, left: &'a [u8]) -> Result<Record<'a>, Fault>
    ensures { Head kinds.now place left.now result }
{
    let &[kind, high, low, ref rest @ ..] = left else {
        return Err(Fault::CutShort);
    };
    let Some(count) = field_count(kinds, kind) else {
        return Err(Fault::UnknownKind);
    };
    let map = BitMap {
        bits: u16::from_be_bytes([high, low]),
    };
    let standing = map.ones();
    let size = field_width(kind) * standing;
    if rest.len() < size {
        return Err(Fault::CutShort);
    }
    if map.stands_from(count) {
        return Err(Fault::BitBeyond);
    }
    let bytes = &rest[..size];
    let fields = Fields { kind, bytes };
    fields.pass(standing)?;
    Ok(Record {
        kind,
        place,
        map,
        bytes,
    })
}
