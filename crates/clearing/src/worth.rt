// What an accepted clearing is worth.
ghost use Rattle.std.specs.Prelude.{Some};
ghost use Rattle.clearing.specs.Verdicts.{worth_text};

use std::fmt;

// In ten-thousandths of a penny an hour.
#[derive(Clone, Copy, Debug, PartialEq, Eq)]
pub struct Worth {
    pub welfare: i64,
    pub cost: i64,
}

// As `welfare 1600000000, cost 2800000000`.
impl fmt::Display for Worth {
    ghost output = { λ w. Some (worth_text w) };

    fn fmt<W: fmt::Write>(&self, f: &mut fmt::Formatter<W>) -> fmt::Result {
        write!(f, "welfare {}, cost {}", self.welfare, self.cost)
    }
}
