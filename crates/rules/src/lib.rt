// What a clearing of a market keeps and what it is worth: the rules on orders, balance and prices, welfare and cost.
#![tactic(auto)]

mod amounts;
mod balance;
mod faults;
mod filled;
mod finds;
mod orders;
mod prices;
mod reads;
mod sales;
mod sums;
mod surplus;
mod units;
mod values;
mod verdict;

pub use faults::{Breach, Rule};
pub use filled::Clearing;
pub use values::{cost, welfare};
pub use verdict::{judge, unbroken_is_kept};
