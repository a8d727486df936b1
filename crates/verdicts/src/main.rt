// Prints the verdict on each of a table of clearings: what it is worth, or the first rule that it breaks, and where.
#![tactic(auto)]

mod cases;

use cases::{CASES, Cases};
use clearing::{NUMBERS, judge_file};
use market::{Book, ClosedMarket};
use std::fs;

// The market of a file, as far as it is in order.
fn market_of(rt: &HostRuntime, name: &str) -> anyhow::Result<ClosedMarket> {
    let file = fs::read(rt, name)?;
    let mut book = Book::open(rt.alloc())?;
    if let Err(refusal) = book.enter(file.as_slice()) {
        println!(rt; "{name}: refused, {refusal}")?;
    }
    Ok(book.close())
}

// Judges the clearings over one market, which is read anew for each: what is wrong with it is told before each verdict.
fn judge_cases(rt: &HostRuntime, cases: &Cases) -> anyhow::Result<()> {
    let name = cases.market;
    for clearing in cases.clearings {
        let market = market_of(rt, name)?;
        let file = fs::read(rt, clearing)?;
        let mut scratch = [0; NUMBERS];
        match judge_file(&market, file.as_slice(), &mut scratch) {
            Ok(worth) => println!(rt; "{name} {clearing}: {worth}")?,
            Err(refusal) => println!(rt; "{name} {clearing}: refused {refusal}")?,
        }
    }
    Ok(())
}

fn main(rt: HostRuntime) -> anyhow::Result<()> {
    for cases in &CASES {
        judge_cases(&rt, cases)?;
    }
    Ok(())
}
