// Holding and releasing the variables of a fixing.
ghost use Rattle.std.specs.Prelude.{◌≡◌, ◌==◌, [], position};
ghost use Rattle.bound.specs.Layers.{hold_answer, hold_after, without_last};
ghost use Rattle.bound.specs.Paths.{held_of, count_of, below_of};

use crate::arithmetic::is_small;
use crate::faults::{Fault, Refusal};
use crate::fixing::{Fixing, Held};
use crate::programme::Programme;
use arrayvec::ArrayVec;

// Where the variable is held, if it is.
fn place_of(row: &[Held], v: usize) -> Option<usize>
    ensures { result ≡ position (λ h. h.variable == v) row.now }
{
    row.iter().position(|h| h.variable == v)
}

impl<'a, P: Programme> Fixing<'a, P> {
    // Nothing is held yet.
    pub fn over(below: &'a P) -> Fixing<'a, P>
        ensures below { below_of result ≡ below.now }
        ensures held { held_of result ≡ [] }
    {
        Fixing {
            below,
            row: ArrayVec::new(),
        }
    }

    // How many variables are held.
    pub(crate) fn count(&self) -> usize
        ensures { result ≡ count_of self.now }
    {
        self.row.len()
    }

    // Holds the variable at the value; one that is held already takes the new value in its place.
    pub fn hold(&mut self, v: usize, value: i64) -> Result<(), Refusal>
        ensures answers { result ≡ hold_answer (P.Programme.table (below_of self.old)).variables (held_of self.old) (record { variable = v; value = value }) }
        ensures held { held_of self.new ≡ hold_after result (held_of self.old) (record { variable = v; value = value }) }
        ensures below { below_of self.new ≡ below_of self.old }
    {
        if !is_small(&value) {
            return Err(Fault::OutsideLimits.at(v));
        }
        if v >= self.below.variable_count() {
            return Err(Fault::Absent.at(v));
        }
        let held = Held { variable: v, value };
        match place_of(self.row.as_slice(), v) {
            Some(at) => self.row[at] = held,
            None if self.row.is_full() => return Err(Fault::TooDeep.at(v)),
            None => self.row.push(held),
        }
        Ok(())
    }

    // Drops the variable that was held last, if any.
    pub fn release(&mut self)
        ensures held { held_of self.new ≡ without_last (held_of self.old) }
        ensures below { below_of self.new ≡ below_of self.old }
    {
        self.row.pop();
    }
}
