// Trees made to break the check: as deep and as full as a file may be, and with numbers at the limits.
#![tactic(auto)]

mod trials;
mod wide;
mod writing;

use bound::check;
use std::alloc::{AllocError, Global};
use std::io;
use trials::TRIALS;
use wide::Wide;

// The bound, or the refusal's number and place.
fn verdict(heap: Global, file: &[u8]) -> Result<String, AllocError> {
    match check(&Wide, file) {
        Ok(bound) => format!(in heap; "bound {bound}"),
        Err(refusal) => format!(in heap; "refused, {refusal}"),
    }
}

fn main(rt: HostRuntime) -> io::Result<()> {
    let heap = rt.alloc();
    for trial in TRIALS {
        let file = trial.file(heap)?;
        let told = verdict(heap, file.as_slice())?;
        println!(rt; "{trial}: {told}")?;
    }
    Ok(())
}
