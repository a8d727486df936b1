// Every way to pack the bag, tried one after another.
ghost use Rattle.std.specs.Prelude.{◌≡◌, ℕ, if◌then◌else◌, pos, ℤ, ◌*ℤ◌};
ghost use Rattle.numbers.specs.Sums.{sum_to, Term};
ghost use Rattle.knapsack.specs.Items.{item_at};
ghost use Rattle.knapsack.specs.declared.items.Item.{Item};
ghost use Rattle.knapsack.specs.Packings.{part, worth_of, load_of, Fits};

use super::items::{CAPACITY, Item, THINGS, item_at};
use numbers::sum_of;
use std::array;

// The number of a thing, where the thing is taken.
fn counted(taken: bool, number: i64) -> i64
    ensures { result ≡ number *ℤ (if taken then pos 1 else pos 0) }
{
    if taken { number } else { 0 }
}

// One number of each thing that is taken, added up.
fn total<N: Fn(Item) -> i64>(taken: &[bool; THINGS], number: N) -> i64
    requires callable { N.IsAlwaysCallable number }
    requires small { (f : Item → ℤ) × ((v : ℕ) (z : ℤ) → N.post number (item_at v) z → Term (λ v. f (item_at v)) 50 v z) }
    ensures { (f : Item → ℤ) → ((v : ℕ) (z : ℤ) → N.post number (item_at v) z → z ≡ f (item_at v)) → result ≡ sum_to 4 (λ v. f (item_at v) *ℤ part taken.now v) }
{
    sum_of(THINGS, |v| counted(taken[v], number(item_at(v))))
}

pub fn worth(taken: &[bool; THINGS]) -> i64
    ensures { result ≡ worth_of taken.now }
{
    total(taken, |item| item.value)
}

pub fn load(taken: &[bool; THINGS]) -> i64
    ensures { result ≡ load_of taken.now }
{
    total(taken, |item| item.size)
}

// A packing that fits, of the greatest worth: each bit of a number says whether a thing is taken. A loop, since a fold would
// carry the best so far from step to step as well.
pub fn best_packing() -> [bool; THINGS]
    ensures { Fits result }
{
    let mut best = [false; THINGS];
    for n in 0..1usize << THINGS {
        let packing = array::from_fn(|v| n >> v & 1 == 1);
        if load(&packing) <= CAPACITY && worth(&packing) > worth(&best) {
            best = packing;
        }
    }
    best
}
