// A market in lines that people read.
use crate::lines::Line;
use market::{Basket, Buy, ClosedMarket, Window};

fn show_window(rt: &HostRuntime, number: usize, entry: Window) -> anyhow::Result<()> {
    let line = Line {
        service: entry.service,
        number,
        entry,
    };
    println!(rt; "{line}")?;
    Ok(())
}

fn show_buy(
    rt: &HostRuntime,
    market: &ClosedMarket,
    number: usize,
    entry: Buy,
) -> anyhow::Result<()> {
    let line = Line {
        service: market.window(usize::from(entry.window)).service,
        number,
        entry,
    };
    println!(rt; "{line}")?;
    Ok(())
}

// A basket with its children and substitutes.
fn show_offer(
    rt: &HostRuntime,
    market: &ClosedMarket,
    number: usize,
    entry: Basket,
) -> anyhow::Result<()> {
    let service = market.window(usize::from(entry.window)).service;
    let parent = Line {
        service,
        number,
        entry,
    };
    println!(rt; "{parent}")?;
    for (k, extra) in market.extras().iter().enumerate() {
        if usize::from(extra.basket) == number {
            let line = Line {
                service,
                number: k,
                entry: *extra,
            };
            println!(rt; "{line}")?;
        }
    }
    Ok(())
}

// All of a market, each kind of entry in the order of its numbers.
pub fn show_market(rt: &HostRuntime, market: &ClosedMarket) -> anyhow::Result<()> {
    for (w, window) in market.windows().iter().enumerate() {
        show_window(rt, w, *window)?;
    }
    for (i, buy) in market.buys().iter().enumerate() {
        show_buy(rt, market, i, *buy)?;
    }
    for (b, basket) in market.baskets().iter().enumerate() {
        show_offer(rt, market, b, *basket)?;
    }
    Ok(())
}
