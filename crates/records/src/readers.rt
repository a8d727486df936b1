// The records of a file, one by one.
ghost use Rattle.std.specs.Prelude.{◌≡◌, drop};
ghost use Rattle.records.specs.Readers.{file_of, kinds_of, place_of, Opened, Next, Handed};

use super::heads::head;
use super::{Fault, Kind, Reader, Record, Refusal};

// The most bytes that a file may have.
const LONGEST: usize = 65_535;

impl<'a> Reader<'a> {
    // A reader of this file, whose records are of these kinds.
    pub fn open(file: &'a [u8], kinds: &'a [Kind]) -> Result<Reader<'a>, Refusal>
        ensures { Opened file.now kinds.now result }
    {
        if file.len() > LONGEST {
            return Err(Refusal {
                fault: Fault::TooLong,
                place: 0,
            });
        }
        Ok(Reader {
            file,
            kinds,
            place: 0,
        })
    }

    // The record at the reader's place, which moves on past it, or none where every byte is read.
    // At a refusal the reader stays.
    pub fn next(&mut self) -> Result<Option<Record<'a>>, Refusal>
        ensures file { file_of self.new ≡ file_of self.old }
        ensures kinds { kinds_of self.new ≡ kinds_of self.old }
        ensures reads { Next (kinds_of self.old) (file_of self.old) (place_of self.old) result (place_of self.new) }
        ensures spelt { Handed (kinds_of self.old) (drop (place_of self.old) (file_of self.old)) result }
    {
        if self.at_end() {
            return Ok(None);
        }
        let place = self.place;
        let record = head(self.kinds, place, &self.file[place..]).map_err(|fault| Refusal {
            fault,
            place,
        })?;
        self.place += 3 + record.bytes.len();
        Ok(Some(record))
    }
}
