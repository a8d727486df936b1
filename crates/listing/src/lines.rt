// The line for a record.
ghost use Rattle.std.specs.Prelude.{◌≡◌, ◌++◌, string_bytes, OnOk};
ghost use Rattle.records.specs.Read.{content};
ghost use Rattle.listing.specs.Lines.{line_text};

use super::fields::add_fields;
use records::Record;
use std::alloc::AllocError;

// Adds the line of a record: its offset, its kind, and its fields by their bits.
pub fn add_line(text: &mut String, record: &Record) -> Result<(), AllocError>
    ensures { OnOk result (string_bytes text.new ≡ string_bytes text.old ++ line_text «record».now.place (content «record».now)) }
{
    write!(text, "{} kind {}:", record.place, record.kind)?;
    add_fields(text, record)?;
    text.push('\n')
}
