// The words that the crates above count with, and the two ways in which their code counts: a sum of terms that fits 64
// bits, and a search for the lowest number with a property.
#![tactic(auto)]

mod adds;
mod finds;

pub use adds::sum_of;
pub use finds::lowest_passing;
