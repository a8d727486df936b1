// Lists the records of the files that are named in the arguments, so that one can look into a file.
#![tactic(auto)]

mod fields;
mod kinds;
mod lines;
mod lists;

use kinds::KINDS;
use lists::listing;
use std::{env, fs};

fn run(rt: &HostRuntime) -> anyhow::Result<()> {
    for name in env::args(rt)?.skip(1) {
        let file = fs::read(rt, name.as_str())?;
        let text = listing(rt.alloc(), file.as_slice(), &KINDS)?;
        print!(rt; "{name}\n{text}")?;
    }
    Ok(())
}

fn main(rt: HostRuntime) -> anyhow::Result<()> {
    run(&rt)
}
