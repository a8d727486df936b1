// A clearing file, read into the scratch.
ghost use Rattle.std.specs.Prelude.{◌≡◌};
ghost use Rattle.market.specs.View.{closed_of};
ghost use Rattle.clearing.specs.Marks.{zeros};
ghost use Rattle.clearing.specs.Files.{kinds, Runs, Outcome};
ghost use Rattle.records.specs.Readers.{file_of, kinds_of, place_of};

use crate::faults::{Fault, Refusal};
use crate::marks::{KINDS, Mark};
use market::ClosedMarket;
use records::Reader;

// How many numbers a scratch has: one for each variable and one for each line.
pub const NUMBERS: usize = 448;

// Reads the marks of a file into numbers that are 0, up to its end or to the record that is refused.
fn read_marks(
    market: &ClosedMarket,
    reader: &mut Reader,
    numbers: &mut [i32; NUMBERS],
) -> Result<(), Refusal>
    requires { (numbers.old ≡ zeros) × ((kinds_of reader.old ≡ kinds) × (place_of reader.old ≡ 0)) }
    ensures { Runs (closed_of market.now) (file_of reader.old) result numbers.new }
{
    let mut last = None;
    while let Some(given) = reader.next()? {
        let mark = Mark::of(&given);
        mark.check(market, last)
            .map_err(|fault| fault.at(given.place))?;
        mark.put(numbers);
        last = Some(mark);
    }
    Ok(())
}

// Reads a clearing file into the first 448 numbers of the scratch.
pub fn read_clearing(market: &ClosedMarket, file: &[u8], scratch: &mut [i32]) -> Result<(), Refusal>
    ensures { Outcome (closed_of market.now) file.now scratch.old result scratch.new }
{
    let Some(numbers) = scratch.first_chunk_mut::<NUMBERS>() else {
        return Err(Fault::ScratchTooShort.at(0));
    };
    let mut reader = Reader::open(file, &KINDS)?;
    numbers.fill(0);
    read_marks(market, &mut reader, numbers)
}
