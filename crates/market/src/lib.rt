// The entries of a market, checked as they come and kept in a book; closing the book makes a market that no longer changes.
#![tactic(auto)]

mod book;
mod checks;
mod closed;
mod entries;
mod faults;
mod laws;
mod reading;
mod services;
mod variables;

pub use book::Book;
pub use closed::ClosedMarket;
pub use entries::{Basket, Buy, Entry, Extra, PRODUCTS, Role, Service, Window};
pub use faults::{Fault, Refusal};
pub use laws::{figure, files_in_order, one_outcome};
pub use variables::{FIRST_EXTRA, FIRST_PARENT, LINES, Order, VARIABLES};
