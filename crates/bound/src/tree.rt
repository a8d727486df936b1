// A node of a tree file, read step by step up to its split or to the close of its leaf.
ghost use Rattle.std.specs.Prelude.{◌≡◌, ◌&&◌, int_lt, length, nat_lt, not, pos};
ghost use Rattle.records.specs.Readers.{file_of, place_of};
ghost use Rattle.bound.specs.Leaves.{leaf_bound};
ghost use Rattle.bound.specs.Checks.{numbered, judged, opened, closing, next_row, found_at, Gives};

use crate::arithmetic::MOST;
use crate::faults::{Fault, Refusal};
use crate::leaf::{Leaf, Weight};
use crate::programme::Programme;
use crate::reader::{Step, TreeReader};

// What opens a node: a split on a variable, or a whole leaf with its bound.
#[derive(Clone, Copy)]
pub(crate) enum Found {
    Branch(usize),
    Leaf(i64),
}

// The number, where it is one of `count` from 0 on.
fn number(count: usize, z: i64) -> Option<usize>
    ensures { result ≡ numbered count z }
{
    usize::try_from(z).ok().filter(|n| *n < count)
}

// Each takes the place of its record: the definitions whose answers these are name it.
impl<'a, P: Programme> Leaf<'a, P> {
    // Whether the row is above the last that is weighed, if any is.
    fn rises(&self, row: i64) -> bool
        ensures { result ≡ not (nat_lt 0 (length self.now.weights.items) && int_lt row (pos (next_row self.now.weights.items))) }
    {
        self.weights.as_slice().last().is_none_or(|last| usize::try_from(row).is_ok_and(
            |row| last.row < row,
        ))
    }

    // The weight of one row more.
    fn judge(&self, row: i64, weight: i64, place: usize) -> Result<Weight, Refusal>
        ensures { result ≡ judged (length self.now.weights.items) (next_row self.now.weights.items) (P.Programme.table self.now.programme.now).rows row weight place }
    {
        if !self.rises(row) {
            return Err(Fault::NotRising.at(place));
        }
        if !(1..=MOST).contains(&weight) {
            return Err(Fault::OutsideLimits.at(place));
        }
        let row = number(self.programme.rows(), row).ok_or(Fault::Absent.at(place))?;
        Ok(Weight { row, weight })
    }

    // A split, which may not follow a weight.
    fn branch(&self, variable: i64, place: usize) -> Result<Found, Refusal>
        ensures { result ≡ opened (P.Programme.table self.now.programme.now).variables (length self.now.weights.items) variable place }
    {
        let known = self.programme.variable_count();
        let variable = number(known, variable).ok_or(Fault::Absent.at(place))?;
        if !self.weights.is_empty() {
            return Err(Fault::SplitBarred.at(place));
        }
        Ok(Found::Branch(variable))
    }

    // The bound of the leaf, which closes at `place`.
    fn close(&self, place: usize) -> Result<Found, Refusal>
        ensures { result ≡ closing (leaf_bound (P.Programme.table self.now.programme.now) self.now.weights.items) place }
    {
        self.bound()
            .map(Found::Leaf)
            .ok_or(Fault::TooLarge.at(place))
    }
}

// Reads on to a split, or to the close of a leaf. A `loop`, since only the reader says where that is, and each step moves it on.
pub(crate) fn open<P: Programme>(reader: &mut TreeReader, programme: &P) -> Result<Found, Refusal>
    ensures file { file_of reader.new.reader ≡ file_of reader.old.reader }
    ensures gives { Gives (found_at (P.table programme.now) (file_of reader.old.reader) (place_of reader.old.reader)) result (place_of reader.new.reader) }
{
    let mut leaf = Leaf::over(programme);
    loop {
        let place = reader.place();
        match reader.next_step()? {
            Step::Split(variable) => return leaf.branch(variable, place),
            Step::Row { row, weight } => {
                let weight = leaf.judge(row, weight, place)?;
                leaf.weights.push(weight);
            }
            Step::Close => return leaf.close(place),
        }
    }
}
