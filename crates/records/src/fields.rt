// A field: the bytes that a record has for a bit that stands.
ghost use Rattle.std.specs.Prelude.{◌≡◌, ◌*◌, ◌≤◌, length, if◌then◌else◌, Some, None};
ghost use Rattle.records.specs.Bytes.{is_narrow, width, signed};
ghost use Rattle.records.specs.Read.{is_zero, values};
ghost use Rattle.records.specs.Taken.{Cuts, Begins, Takes, Passes};

use super::Fault;

fn is_narrow(kind: u8) -> bool
    ensures { result ≡ is_narrow kind }
{
    matches!(kind, 1..=7)
}

// The bytes of a field of this kind.
pub(super) fn field_width(kind: u8) -> usize
    ensures { result ≡ width kind }
{
    if is_narrow(kind) { 4 } else { 8 }
}

// A field that stands is not 0.
fn standing(value: i64) -> Option<i64>
    ensures { result ≡ (if is_zero value then None else Some value) }
{
    (value != 0).then_some(value)
}

// Fields of a record of this kind, one after another, as they are read.
#[derive(Clone, Copy)]
pub(super) struct Fields<'a> {
    pub(super) kind: u8,
    pub(super) bytes: &'a [u8],
}

impl<'a> Fields<'a> {
    // Takes the next N bytes, where there are so many.
    fn take_bytes<const N: usize>(&mut self) -> Option<[u8; N]>
        ensures kind { self.new.kind ≡ self.old.kind }
        ensures takes { Cuts N self.old.bytes.now result self.new.bytes.now }
    {
        let Some((first, rest)) = self.bytes.split_first_chunk() else {
            return None;
        };
        self.bytes = rest;
        Some(*first)
    }

    fn take_number(&mut self) -> Option<i64>
        ensures kind { self.new.kind ≡ self.old.kind }
        ensures takes { Begins (width self.old.kind) (signed self.old.kind) self.old.bytes.now result self.new.bytes.now }
    {
        if is_narrow(self.kind) {
            Some(i64::from(i32::from_be_bytes(self.take_bytes()?)))
        } else {
            Some(i64::from_be_bytes(self.take_bytes()?))
        }
    }

    // Takes the next field. Taken apart by `let else`, not `ok_or`: what is there, or which fault it is that it is not.
    pub(super) fn take(&mut self) -> Result<i64, Fault>
        ensures kind { self.new.kind ≡ self.old.kind }
        ensures takes { Takes self.old.kind self.old.bytes.now result self.new.bytes.now }
    {
        let Some(value) = self.take_number() else {
            return Err(Fault::CutShort);
        };
        let Some(value) = standing(value) else {
            return Err(Fault::ZeroField);
        };
        Ok(value)
    }

    // Goes through the first `count` fields. Their bytes are all there, so that none is found cut short. By a count, since each
    // field moves the rest on and none is kept.
    pub(super) fn pass(mut self, count: usize) -> Result<(), Fault>
        requires { width self.kind * count ≤ length self.bytes.now }
        ensures { Passes (values self.entry.kind count self.entry.bytes.now) result }
    {
        for _i in 0..count {
            self.take()?;
        }
        Ok(())
    }
}
