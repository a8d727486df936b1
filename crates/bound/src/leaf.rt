// The bound that a leaf's weights give.
ghost use Rattle.std.specs.Prelude.{◌≡◌, []};
ghost use Rattle.bound.specs.Leaves.{sides, rest_of, part, leaf_bound};

use crate::arithmetic::{fewer_by, more_by, product, sum};
use crate::programme::Programme;
use arrayvec::ArrayVec;

// A row, and the weight that a leaf gives it.
#[derive(Clone, Copy, Default)]
pub(crate) struct Weight {
    pub(crate) row: usize,
    pub(crate) weight: i64,
}

// The most rows that a programme has.
const MOST_ROWS: usize = 1024;

// A leaf over a programme: its weights, each of a row. The only place that keeps them.
#[derive(Drop)]
pub(crate) struct Leaf<'a, P> {
    pub(crate) programme: &'a P,
    pub(crate) weights: ArrayVec<Weight, MOST_ROWS>,
}

impl<'a, P: Programme> Leaf<'a, P> {
    // No row is weighed yet.
    pub(crate) fn over(programme: &'a P) -> Leaf<'a, P>
        ensures programme { result.programme.now ≡ programme.now }
        ensures weights { result.weights.items ≡ [] }
    {
        Leaf {
            programme,
            weights: ArrayVec::new(),
        }
    }

    // Each weight times its row's right side, added up. A loop, here and below: any sum may be past its limit, and a `?` in a
    // `for` says so more plainly than a closure under `try_fold`.
    fn sides_sum(&self) -> Option<i64>
        ensures { result ≡ sides (P.Programme.table self.now.programme.now) self.now.weights.items }
    {
        let mut bound = 0;
        for w in self.weights.as_slice() {
            bound = more_by(bound, w.weight, self.programme.right_side(w.row))?;
        }
        Some(bound)
    }

    // The scale times the variable's objective number, less each weight times its coefficient.
    fn rest_of(&self, v: usize) -> Option<i64>
        ensures { result ≡ rest_of (P.Programme.table self.now.programme.now) self.now.weights.items v }
    {
        let mut rest = product(self.programme.scale_value(), self.programme.objective(v))?;
        for w in self.weights.as_slice() {
            rest = fewer_by(rest, w.weight, self.programme.coefficient(w.row, v))?;
        }
        Some(rest)
    }

    // The most that the variable's rest adds: at its low or at its high limit.
    fn part_of(&self, v: usize) -> Option<i64>
        ensures { result ≡ part (P.Programme.table self.now.programme.now) self.now.weights.items v }
    {
        let rest = self.rest_of(v)?;
        let (low, high) = self.programme.limits(v);
        let at_low = product(rest, low)?;
        let at_high = product(rest, high)?;
        Some(at_low.max(at_high))
    }

    // The weighted right sides and every variable's part, added up.
    pub(crate) fn bound(&self) -> Option<i64>
        ensures { result ≡ leaf_bound (P.Programme.table self.now.programme.now) self.now.weights.items }
    {
        let mut bound = self.sides_sum()?;
        for v in 0..self.programme.variable_count() {
            bound = sum(bound, self.part_of(v)?)?;
        }
        Some(bound)
    }
}
