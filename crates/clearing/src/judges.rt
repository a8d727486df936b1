// A clearing file against the rules.
ghost use Rattle.std.specs.Prelude.{◌≡◌, length, IfOk};
ghost use Rattle.numbers.specs.Sums.{Within};
ghost use Rattle.market.specs.View.{closed_of};
ghost use Rattle.clearing.specs.Verdicts.{Judged};

use crate::faults::Refusal;
use crate::files::{NUMBERS, read_clearing};
use crate::worth::Worth;
use market::ClosedMarket;
use rules::Clearing;

// Reads a clearing file into the first 448 numbers of the scratch, and judges it: its welfare and its cost where it
// keeps every rule, else what is wrong with the file, or the first rule that it breaks at its lowest place.
pub fn judge_file(market: &ClosedMarket, file: &[u8], scratch: &mut [i32]) -> Result<Worth, Refusal>
    ensures judged { Judged (closed_of market.now) file.now scratch.old result scratch.new }
    ensures size { IfOk result (λ w. Within 5000000000000000 w.cost) }
{
    read_clearing(market, file, scratch)?;
    let clearing = Clearing::over(market, &scratch[0..NUMBERS]);
    clearing.judge()?;
    Ok(Worth {
        welfare: clearing.welfare(),
        cost: clearing.cost(),
    })
}
