// The clearing that a console holds.
ghost use Rattle.std.specs.Prelude.{◌≡◌};
ghost use Rattle.console.specs.Standing.{better};

use clearing::NUMBERS;

// The default is the empty clearing at prices 0.
#[derive(Clone, Copy, Debug, PartialEq, Eq, Default)]
pub struct Held {
    pub numbers: [i32; NUMBERS],
    pub welfare: i64,
    pub cost: i64,
}

impl Held {
    // Of greater welfare, or of equal welfare at less cost.
    pub(crate) fn is_better(&self, other: &Held) -> bool
        ensures { result ≡ better self.now other.now }
    {
        self.welfare
            .cmp(&other.welfare)
            .then(other.cost.cmp(&self.cost))
            .is_gt()
    }
}
