// A small knapsack, the best packing, the bound that a tree file proves, and trees that are refused.
#![tactic(auto)]

mod items;
mod packing;
mod programme;
mod report;

use items::{CAPACITY, ITEMS, Item, Named};
use packing::best_packing;
use report::{contents, verdict};
use std::{fs, io};

// One tree that proves a bound, and others that are broken as their names say; the text beside each file has its records.
const FILES: [&str; 12] = [
    "tree.bin",
    "empty.bin",
    "cut-short.bin",
    "unfinished.bin",
    "bytes-after.bin",
    "absent-variable.bin",
    "split-twice.bin",
    "split-after-weight.bin",
    "rows-repeat.bin",
    "weight-missing.bin",
    "absent-row.bin",
    "too-large.bin",
];

fn main(rt: HostRuntime) -> io::Result<()> {
    println!(rt; "A bag of capacity {CAPACITY}, and what may be packed:")?;
    for Named { name, item } in ITEMS {
        let Item { value, size } = item;
        println!(rt; "  {name}: value {value}, size {size}")?;
    }
    let best = contents(rt.alloc(), &best_packing())?;
    println!(rt; "The best packing: {best}")?;
    println!(rt; "What each tree file proves, in tenths:")?;
    for name in FILES {
        let file = fs::read(&rt, name)?;
        let told = verdict(rt.alloc(), file.as_slice())?;
        println!(rt; "  {name}: {told}")?;
    }
    Ok(())
}
