// Enters the market files of data/cases.bin, case by case, each into a new book, and prints the answers and how many
// entries of each kind are kept. What it has to print stands in the file stdout.
#![tactic(auto)]

ghost use Rattle.std.specs.Iterator.{UpTo};

mod parts;

use market::{Book, ClosedMarket, Refusal};
use parts::Parts;
use std::str::from_utf8;
use std::{fmt, fs, iter};

fn show_answer(rt: &HostRuntime, answer: Result<(), Refusal>) -> anyhow::Result<()> {
    match answer {
        Ok(()) => print!(rt; " accepted")?,
        Err(refusal) => print!(rt; " {refusal}")?,
    }
    Ok(())
}

fn show_counts(rt: &HostRuntime, market: &ClosedMarket) -> anyhow::Result<()> {
    let windows = market.window_count();
    let buys = market.buy_count();
    let baskets = market.basket_count();
    let extras = market.extra_count();
    println!(rt; "; {windows} {buys} {baskets} {extras}")?;
    Ok(())
}

// Enters the files one after the other into a new book.
fn run_case<'a, N: fmt::Display + Copy, I: Iterator<Item = &'a [u8]> + Drop>(
    rt: &HostRuntime,
    name: N,
    files: I,
) -> anyhow::Result<()>
    requires can { I.can_next files }
    requires ends { UpTo (I.remaining files) usize.MAX }
{
    print!(rt; "{name}:")?;
    let mut book = Book::open(rt.alloc())?;
    for (i, file) in files.enumerate() {
        if i > 0 {
            print!(rt; ",")?;
        }
        show_answer(rt, book.enter(file))?;
    }
    show_counts(rt, &book.close())
}

// The name of a file of zeros of this length. It is printed as it is, so that it takes no memory.
#[derive(Clone, Copy, Debug, PartialEq, Eq)]
struct Zeros {
    length: usize,
}

impl fmt::Display for Zeros {
    fn fmt<W: fmt::Write>(&self, f: &mut fmt::Formatter<W>) -> fmt::Result {
        write!(f, "{} bytes of 0", self.length)
    }
}

// Enters a file of zeros, which is no market file, of this length.
fn run_zeros(rt: &HostRuntime, length: usize) -> anyhow::Result<()> {
    let file = vec![in rt.alloc(); 0u8; length]?;
    run_case(rt, Zeros { length }, iter::once(file.as_slice()))
}

fn run(rt: &HostRuntime) -> anyhow::Result<()> {
    let cases = fs::read(rt, "cases.bin")?;
    let mut parts = Parts {
        bytes: cases.as_slice(),
    };
    while let Some(name) = parts.next() {
        let Some(bytes) = parts.next() else {
            break;
        };
        run_case(rt, from_utf8(name)?, Parts { bytes })?;
    }
    run_zeros(rt, 65_535)?;
    run_zeros(rt, 65_536)
}

fn main(rt: HostRuntime) -> anyhow::Result<()> {
    run(&rt)
}
