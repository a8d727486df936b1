// The knapsack as a programme: pack the greatest value that the bag can hold.
ghost use Rattle.std.specs.Prelude.{IfOk};
ghost use Rattle.knapsack.specs.Knapsack.{knapsack, knapsack_lawful};
ghost use Rattle.knapsack.specs.Packings.{Caps};

use super::items::{CAPACITY, THINGS, item_at};
use bound::{Programme, Refusal, check};

// A variable for each thing, 1 where it is packed; one row, that the sizes are at most the capacity.
#[derive(Drop)]
pub struct Bag;

impl Programme for Bag {
    // Bounds are in tenths of a value, so that the weight of a row may be one, too.
    const SCALE: i64 = 10;

    const VARIABLES: usize = THINGS;

    // What the answers mean, and the proof that it is a lawful table.
    ghost table = { λ _. knapsack };

    ghost lawful = { λ _. knapsack_lawful };

    fn scale_value(&self) -> i64 {
        Self::SCALE
    }

    fn variable_count(&self) -> usize {
        Self::VARIABLES
    }

    fn rows(&self) -> usize {
        1
    }

    fn limits(&self, v: usize) -> (i64, i64) {
        if v < Self::VARIABLES { (0, 1) } else { (0, 0) }
    }

    fn whole(&self, v: usize) -> bool {
        v < Self::VARIABLES
    }

    fn objective(&self, v: usize) -> i64 {
        item_at(v).value
    }

    fn coefficient(&self, row: usize, v: usize) -> i64 {
        if row < 1 { item_at(v).size } else { 0 }
    }

    fn right_side(&self, row: usize) -> i64 {
        if row < 1 { CAPACITY } else { 0 }
    }
}

// The bound that a tree file proves: no packing that fits is worth more, in tenths.
pub fn proven_bound(file: &[u8]) -> Result<i64, Refusal>
    ensures { IfOk result Caps }
{
    check(&Bag, file)
}
