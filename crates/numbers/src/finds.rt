// A search by a test that is asked number by number.
ghost use Rattle.std.specs.Prelude.{ℕ, ◌<◌};
ghost use Rattle.numbers.specs.Searches.{Found};

// The lowest number below `count` that passes the test. A loop: `find` over a range, with this contract, was left unproved.
pub fn lowest_passing<F: Fn(usize) -> bool>(count: usize, test: F) -> Option<usize>
    requires { (k : ℕ) → k < count → F.pre test k }
    ensures { Found (F.post test) count result }
{
    for k in 0..count {
        if test(k) {
            return Some(k);
        }
    }
    None
}
