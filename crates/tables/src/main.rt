// Prints the two programmes of a market file: the limits, marks and objective numbers of the variables, and the rows, where they are not all 0.
// The price programme is that of a clearing in which every order is accepted in full.
#![tactic(auto)]

ghost use Rattle.std.specs.Prelude.{ℕ, ◌<◌};
ghost use Rattle.rules.specs.Clearings.{Parts};
ghost use Rattle.rules.specs.Scratch.{parts_in};

use auction::{AcceptanceProgramme, PriceProgramme};
use bound::Programme;
use market::{Book, VARIABLES};
use std::fs;

fn show_variable<P: Programme>(rt: &HostRuntime, p: &P, v: usize) -> anyhow::Result<()> {
    let (low, high) = p.limits(v);
    let number = p.objective(v);
    if (low, high, number) == (0, 0, 0) {
        return Ok(());
    }
    let mark = if p.whole(v) { ", whole" } else { "" };
    println!(rt; "  variable {v}: {low} to {high}{mark}, objective {number}")?;
    Ok(())
}

// A row is printed as it is asked for, and nothing of it is kept.
fn show_row<P: Programme>(rt: &HostRuntime, p: &P, row: usize) -> anyhow::Result<()> {
    let mut terms = (0..p.variable_count())
        .map(|v| (v, p.coefficient(row, v)))
        .filter(|(_, number)| *number != 0)
        .peekable();
    if terms.peek().is_none() {
        return Ok(());
    }
    print!(rt; "  row {row}:")?;
    for (v, number) in terms {
        print!(rt; " {number} at {v},")?;
    }
    println!(rt; " at most {}", p.right_side(row))?;
    Ok(())
}

// A programme is known only by questions, so its variables and rows are asked for by number.
fn show<P: Programme>(rt: &HostRuntime, p: &P) -> anyhow::Result<()> {
    for v in 0..p.variable_count() {
        show_variable(rt, p, v)?;
    }
    for row in 0..p.rows() {
        show_row(rt, p, row)?;
    }
    Ok(())
}

// The parts of an order that is accepted in full.
const FULL: i32 = 10_000;

// Those of orders that all are.
fn in_full() -> [i32; VARIABLES]
    ensures { (v : ℕ) → v < 256 → Parts 10000 (parts_in result v) }
{
    [FULL; VARIABLES]
}

fn main(rt: HostRuntime) -> anyhow::Result<()> {
    let mut book = Book::open(rt.alloc())?;
    let file = fs::read(&rt, "market.bin")?;
    let _ = book.enter(file.as_slice());
    let market = book.close();
    println!(rt; "acceptance")?;
    show(&rt, &AcceptanceProgramme::over(&market))?;
    println!(rt; "prices")?;
    let parts = in_full();
    show(&rt, &PriceProgramme::over(&market, &parts))
}
