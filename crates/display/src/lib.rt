// The panel's line: two amounts in whole pence, rounded up, as text at the start of a lent buffer.
#![tactic(auto)]

mod line;
mod rounding;

pub use line::{LINE_ROOM, write_line};
pub use rounding::whole_pence;
