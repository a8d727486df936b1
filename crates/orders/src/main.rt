// Shows the market files that are named in the arguments as people read them.
#![tactic(auto)]

mod lines;
mod names;
mod sales;
mod shows;
mod times;

use market::{Book, Refusal};
use shows::show_market;
use std::{env, fs};

// What is wrong with the file, or that nothing is.
fn show_answer(rt: &HostRuntime, answer: Result<(), Refusal>) -> anyhow::Result<()> {
    match answer {
        Ok(()) => println!(rt; "accepted")?,
        Err(refusal) => {
            let number = refusal.fault.number();
            let layer = refusal.fault.layer();
            let place = refusal.place;
            println!(rt;
                "refused at byte {place}: fault {number} of layer {layer}; the entries before it are kept"
            )?;
        }
    }
    Ok(())
}

fn show_file(rt: &HostRuntime, file: &[u8]) -> anyhow::Result<()> {
    let mut book = Book::open(rt.alloc())?;
    let answer = book.enter(file);
    show_answer(rt, answer)?;
    show_market(rt, &book.close())
}

fn run(rt: &HostRuntime) -> anyhow::Result<()> {
    for name in env::args(rt)?.skip(1) {
        let file = fs::read(rt, name.as_str())?;
        print!(rt; "{name}: ")?;
        show_file(rt, file.as_slice())?;
    }
    Ok(())
}

fn main(rt: HostRuntime) -> anyhow::Result<()> {
    run(&rt)
}
