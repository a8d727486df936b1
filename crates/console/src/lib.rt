// The console of a closed market: it judges clearings, trees and price files, holds the best clearing and the least
// bounds, and shows the gap that is left.
#![tactic(auto)]

mod call;
mod faults;
mod held;
mod replays;
mod state;

pub use call::{Answer, Call};
pub use clearing::NUMBERS;
pub use display::LINE_ROOM;
pub use faults::{Fault, Refusal};
pub use held::Held;
pub use replays::{Past, replay};
pub use state::Console;
