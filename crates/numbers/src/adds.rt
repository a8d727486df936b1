// A sum of terms that are worked out one by one.
ghost use Rattle.std.specs.Prelude.{ℕ, ◌*◌, ◌^◌, ◌<◌, ℤ};
ghost use Rattle.numbers.specs.Sums.{Summed, Terms};

// The sum of the terms at the numbers below `count`, whose sizes together fit 64 bits. A loop, since the library's `sum` of
// signed numbers says nothing of what fits.
pub fn sum_of<F: Fn(usize) -> i64>(count: usize, term: F) -> i64
    requires asked { (k : ℕ) → k < count → F.pre term k }
    requires fits { (f : ℕ → ℤ) × (size : ℕ) × (count * size < 2 ^ 63) × Terms (F.post term) f size count }
    ensures { (f : ℕ → ℤ) (size : ℕ) → Terms (F.post term) f size count → Summed f size count result }
{
    let mut sum = 0;
    for k in 0..count {
        sum += term(k);
    }
    sum
}
