// A programme as wide as one may be, with numbers as great as they may be.
ghost use Rattle.hostile.specs.Wide.{wide, wide_lawful};

use bound::Programme;

// The greatest number that the check takes, as the format says it, and not as the check does.
pub const LIMIT: i64 = 1_000_000_000_000_000_000;

// The last variable.
const LAST: usize = 255;

// 256 variables, each 0 or 1 and worth 1. Row 0 has 1 at each; rows 1 and 2 have -10^18 and 10^18 at the last.
#[derive(Drop)]
pub struct Wide;

impl Programme for Wide {
    const SCALE: i64 = 1;

    const VARIABLES: usize = 256;

    ghost table = { λ _. wide };

    ghost lawful = { λ _. wide_lawful };

    fn scale_value(&self) -> i64 {
        Self::SCALE
    }

    fn variable_count(&self) -> usize {
        Self::VARIABLES
    }

    fn rows(&self) -> usize {
        3
    }

    fn limits(&self, v: usize) -> (i64, i64) {
        if v < Self::VARIABLES { (0, 1) } else { (0, 0) }
    }

    fn whole(&self, v: usize) -> bool {
        v < Self::VARIABLES
    }

    fn objective(&self, v: usize) -> i64 {
        i64::from(v < Self::VARIABLES)
    }

    fn coefficient(&self, row: usize, v: usize) -> i64 {
        match row {
            0 if v < Self::VARIABLES => 1,
            1 if v == LAST => -LIMIT,
            2 if v == LAST => LIMIT,
            _ => 0,
        }
    }

    fn right_side(&self, row: usize) -> i64 {
        match row {
            0 => 3,
            1 => LIMIT,
            2 => -LIMIT,
            _ => 0,
        }
    }
}
