// What a book takes from a market file.
ghost use Rattle.std.specs.Prelude.{◌≡◌, ◌<◌, ◌≤◌, length};
ghost use Rattle.records.specs.Read.{content};
ghost use Rattle.market.specs.Files.{Entered, too_long, Enters, Accepts};
ghost use Rattle.market.specs.Lawful.{Lawful};
ghost use Rattle.market.specs.Taken.{Took};
ghost use Rattle.market.specs.View.{market_of};

use super::Book;
use crate::faults::{Fault, Refusal};
use crate::reading::{KINDS, entry};
use records::{Reader, Record};

impl Book {
    // Takes the entry of a record, or says what is wrong with it.
    fn take(&mut self, given: &Record) -> Result<(), Fault>
        ensures { Took (market_of self.old) (content given.now) result (market_of self.new) }
    {
        let entry = entry(given)?;
        self.check(entry)?;
        self.put(entry);
        Ok(())
    }

    // Takes the entries of a file, up to the first record that is refused.
    fn enter_records(&mut self, file: &[u8]) -> Result<(), Refusal>
        ensures long { 65535 < length file.now → (result ≡ too_long) × (market_of self.new ≡ market_of self.old) }
        ensures reads { length file.now ≤ 65535 → Entered (market_of self.old) file.now result (market_of self.new) }
    {
        let mut reader = Reader::open(file, &KINDS)?;
        while let Some(given) = reader.next()? {
            self.take(&given).map_err(|fault| Refusal {
                fault,
                place: given.place,
            })?;
        }
        Ok(())
    }

    // Enters a market file. The entries before a refused record are kept; a file that is too long is not read.
    pub fn enter(&mut self, file: &[u8]) -> Result<(), Refusal>
        ensures enters { Enters (market_of self.old) file.now result (market_of self.new) }
        ensures accepts { Accepts (market_of self.old) file.now result (market_of self.new) }
        ensures lawful { Lawful (market_of self.new) }
    {
        self.enter_records(file)
    }
}
