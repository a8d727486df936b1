// Which order each variable of a clearing stands for, and how many variables and lines there are.
ghost use Rattle.std.specs.Prelude.{◌≡◌};
ghost use Rattle.market.specs.Variables.{order_of};

pub const VARIABLES: usize = 256;

// The variable of the first basket's parent, and of the first child or substitute.
pub const FIRST_PARENT: usize = 64;

pub const FIRST_EXTRA: usize = 160;

// Line 6 × w + p is product p in window w.
pub const LINES: usize = 192;

// A buy, the parent of a basket, or a child or substitute, by its number.
#[derive(Clone, Copy, Debug, PartialEq, Eq)]
pub enum Order {
    Buy(usize),
    Parent(usize),
    Extra(usize),
}

impl Order {
    // The order that a variable stands for: 0–63 buys, 64–159 parents, 160–255 children and substitutes.
    pub fn of(variable: usize) -> Option<Order>
        ensures { result ≡ order_of variable }
    {
        match variable {
            0..FIRST_PARENT => Some(Order::Buy(variable)),
            FIRST_PARENT..FIRST_EXTRA => Some(Order::Parent(variable - FIRST_PARENT)),
            FIRST_EXTRA..VARIABLES => Some(Order::Extra(variable - FIRST_EXTRA)),
            _ => None,
        }
    }
}
