// The clearing file: parts by variable and prices by line, read into a scratch that the caller lends, and judged.
#![tactic(auto)]

mod faults;
mod files;
mod judges;
mod marks;
mod worth;

pub use faults::{Fault, Refusal};
pub use files::{NUMBERS, read_clearing};
pub use judges::judge_file;
pub use worth::Worth;
