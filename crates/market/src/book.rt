// The open book. Its tables are never longer than their limits and have that room from the start; no entry in them breaks
// the entry lines.
ghost use Rattle.std.specs.Prelude.{◌<◌, ◌≤◌, vec_len, vec_capacity};
ghost use Rattle.market.specs.Lines.{FitWindows, Apart, FitBuys, Bought, FitBaskets, Placed, Looped, FitExtras, Added};

use crate::entries::{Basket, Buy, Extra, Window};

mod checks;
mod enters;
mod opens;
mod puts;

// How many entries of each kind there may be.
const MOST_WINDOWS: usize = 32;

const MOST_BUYS: usize = 64;

const MOST_BASKETS: usize = 96;

const MOST_EXTRAS: usize = 96;

#[derive(Drop)]
pub struct Book {
    pub(crate) windows: Vec<Window>,
    pub(crate) buys: Vec<Buy>,
    pub(crate) baskets: Vec<Basket>,
    pub(crate) extras: Vec<Extra>,
    ghost few: { (vec_len windows ≤ 32) × (vec_len buys ≤ 64) × (vec_len baskets ≤ 96) × (vec_len extras ≤ 96) },
    ghost room: { (32 ≤ vec_capacity windows) × (64 ≤ vec_capacity buys) × (96 ≤ vec_capacity baskets) × (96 ≤ vec_capacity extras) },
    ghost spans: { FitWindows windows.items × Apart windows.items },
    ghost asks: { FitBuys buys.items × Bought windows.items buys.items },
    ghost offers: { FitBaskets baskets.items × Placed windows.items baskets.items × Looped windows.items baskets.items },
    ghost adds: { FitExtras extras.items × Added windows.items baskets.items extras.items },
}
