// The fields of a record as text.
ghost use Rattle.std.specs.Prelude.{◌≡◌, ◌++◌, Some, string_bytes, OnOk};
ghost use Rattle.records.specs.Read.{content};
ghost use Rattle.listing.specs.Lines.{field_text, standing_text, fields_text};

use records::Record;
use std::alloc::AllocError;
use std::fmt;

// A field, and the bit that it stands for.
#[derive(Clone, Copy, Debug, PartialEq, Eq)]
pub struct Field {
    pub bit: u8,
    pub value: i64,
}

impl fmt::Display for Field {
    ghost output = { λ f. Some (field_text f.bit f.value) };

    fn fmt<W: fmt::Write>(&self, f: &mut fmt::Formatter<W>) -> fmt::Result {
        write!(f, " {}={}", self.bit, self.value)
    }
}

// A field that stands is not 0.
fn add_field(text: &mut String, field: Field) -> Result<(), AllocError>
    ensures { OnOk result (string_bytes text.new ≡ string_bytes text.old ++ standing_text field.bit field.value) }
{
    if field.value == 0 {
        return Ok(());
    }
    write!(text, "{field}")
}

// Adds the fields that stand, by their bits: a map has sixteen.
pub fn add_fields(text: &mut String, record: &Record) -> Result<(), AllocError>
    ensures { OnOk result (string_bytes text.new ≡ string_bytes text.old ++ fields_text 0 (content «record».now).fields) }
{
    for bit in 0..16 {
        let value = record.field(bit);
        add_field(text, Field { bit, value })?;
    }
    Ok(())
}
