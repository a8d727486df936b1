// What a console shows.
ghost use Rattle.std.specs.Prelude.{◌≡◌, length};
ghost use Rattle.console.specs.Panel.{gap_pence, cost_pence, panel_answer, panel_buffer};
ghost use Rattle.console.specs.View.{standing};

use crate::faults::{Fault, Refusal};
use crate::state::Console;
use display::{whole_pence, write_line};

// So many grains, and so many thousandths of a grain, make a penny.
const GRAINS: u32 = 10_000;

const PRICE_PARTS: u32 = 10_000_000;

// A cost is in grains, and a price bound in thousandths of a grain.
const THOUSANDTHS: i64 = 1_000;

impl Console {
    // The gap in whole pence, rounded up; absent until a tree has been accepted.
    fn gap_pence(&self) -> Option<u64>
        ensures { result ≡ gap_pence (standing self.now) }
    {
        let gap = self.bound?.abs_diff(self.held.welfare);
        Some(whole_pence(gap, GRAINS))
    }

    // The price gap in whole pence, rounded up; absent without a price bound.
    fn cost_pence(&self) -> Option<u64>
        ensures { result ≡ cost_pence (standing self.now) }
    {
        let gap = self.price_bound?.abs_diff(-THOUSANDTHS * self.held.cost);
        Some(whole_pence(gap, PRICE_PARTS))
    }

    // Writes the panel line at the start of the buffer, and says how long it is.
    pub fn panel(&self, buffer: &mut [u8]) -> Result<usize, Refusal>
        ensures answer { result ≡ panel_answer (standing self.now) (length buffer.old) }
        ensures after { buffer.new ≡ panel_buffer (standing self.now) buffer.old }
    {
        write_line(buffer, self.gap_pence(), self.cost_pence()).ok_or(Refusal {
            fault: Fault::BufferTooShort,
            place: 0,
        })
    }
}
