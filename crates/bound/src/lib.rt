// The bound check: a linear problem is known only by a programme's answers, and a tree file either proves a bound
// on every point of the problem, or is refused.
#![tactic(auto)]

mod arithmetic;
mod checks;
mod faults;
mod fixing;
mod holds;
mod leaf;
mod programme;
mod reader;
mod sheet;
mod tree;

pub use checks::{check, every_pile_is_bounded};
pub use faults::{Fault, Refusal};
pub use fixing::Fixing;
pub use programme::Programme;
pub use sheet::LimitSheet;
