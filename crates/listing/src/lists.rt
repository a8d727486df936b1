// The listing of a file.
ghost use Rattle.std.specs.Prelude.{◌≡◌, IfOk, string_bytes};
ghost use Rattle.listing.specs.Lists.{Lists, Added};
ghost use Rattle.listing.specs.declared.lists.Stop.TheVariants.{Memory, Refused};

use super::lines::add_line;
use records::{Kind, Reader, Refusal};
use std::alloc::{AllocError, Global};

// Why no further record is listed, before the file's end.
#[derive(Clone, Copy)]
enum Stop {
    Memory(AllocError),
    Refused(Refusal),
}

impl From<AllocError> for Stop {
    ghost from_gives = { λ e r. r ≡ Memory e };

    fn from(e: AllocError) -> Stop {
        Stop::Memory(e)
    }
}

impl From<Refusal> for Stop {
    ghost from_gives = { λ e r. r ≡ Refused e };

    fn from(e: Refusal) -> Stop {
        Stop::Refused(e)
    }
}

// Adds a line for each record, up to the end or the first fault: how many there are.
fn add_lines<'a>(text: &mut String, file: &'a [u8], kinds: &'a [Kind]) -> Result<usize, Stop>
    ensures { Added kinds.now file.now (string_bytes text.old) (string_bytes text.new) result }
{
    let mut reader = Reader::open(file, kinds)?;
    let mut count = 0;
    while let Some(record) = reader.next()? {
        add_line(text, &record)?;
        count += 1;
    }
    Ok(count)
}

// A line for each record, up to the first fault or to the end, and a line that says which.
pub fn listing<'a>(heap: Global, file: &'a [u8], kinds: &'a [Kind]) -> Result<String, AllocError>
    ensures { IfOk result (λ s. Lists kinds.now file.now (string_bytes s)) }
{
    let mut text = String::new(heap);
    match add_lines(&mut text, file, kinds) {
        Ok(count) => writeln!(text, "records: {count}")?,
        Err(Stop::Refused(refusal)) => writeln!(text, "fault {refusal}")?,
        Err(Stop::Memory(e)) => return Err(e),
    }
    Ok(text)
}
