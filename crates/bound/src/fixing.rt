// A programme below, with some variables held at a value.
ghost use Rattle.std.specs.Prelude.{◌≡◌, ◌≤◌, length};
ghost use Rattle.bound.specs.Layers.{SmallRow, held_at, fixed_by, fixed_by_lawful};

use crate::programme::Programme;
use arrayvec::ArrayVec;

#[derive(Clone, Copy, Default)]
pub(crate) struct Held {
    pub(crate) variable: usize,
    pub(crate) value: i64,
}

// At most 64 variables are held, in the order in which they were first held.
#[derive(Drop)]
pub struct Fixing<'a, P> {
    pub(crate) below: &'a P,
    pub(crate) row: ArrayVec<Held, 64>,
    ghost few: { length row.items ≤ 64 },
    ghost small: { SmallRow row.items },
}

// The value that the variable is held at, if it is.
fn held_at(row: &[Held], v: usize) -> Option<i64>
    ensures { result ≡ held_at v row.now }
{
    row.iter().find(|h| h.variable == v).map(|h| h.value)
}

// Both limits of a held variable are its value; all else is as below, asked question by question: a body in the trait
// could not know what is below.
impl<'a, P: Programme> Programme for Fixing<'a, P> {
    const SCALE: i64 = P::SCALE;

    const VARIABLES: usize = P::VARIABLES;

    ghost table = { λ f. fixed_by (P.Programme.table f.below.now) f.row };

    ghost lawful = { λ f. fixed_by_lawful (P.Programme.table f.below.now) f.row (P.Programme.lawful f.below.now) f.small };

    fn scale_value(&self) -> i64 {
        self.below.scale_value()
    }

    fn variable_count(&self) -> usize {
        self.below.variable_count()
    }

    fn rows(&self) -> usize {
        self.below.rows()
    }

    fn limits(&self, v: usize) -> (i64, i64) {
        match held_at(self.row.as_slice(), v) {
            Some(value) if v < self.below.variable_count() => (value, value),
            _ => self.below.limits(v),
        }
    }

    fn whole(&self, v: usize) -> bool {
        self.below.whole(v)
    }

    fn objective(&self, v: usize) -> i64 {
        self.below.objective(v)
    }

    fn coefficient(&self, row: usize, v: usize) -> i64 {
        self.below.coefficient(row, v)
    }

    fn right_side(&self, row: usize) -> i64 {
        self.below.right_side(row)
    }
}
