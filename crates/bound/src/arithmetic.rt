// Sums and products that are held to ±10^18: `None` where one is past it.
ghost use Rattle.std.specs.Prelude.{◌≡◌, nat_le, unsigned_abs};
ghost use Rattle.bound.specs.Tables.{most};
ghost use Rattle.bound.specs.Leaves.{kept, times, plus, less, more, fewer};

// The greatest magnitude of a number that is asked for, or computed with.
pub(crate) const MOST: i64 = 1_000_000_000_000_000_000;

// The numbers of that magnitude at most.
pub(crate) fn is_small(z: &i64) -> bool
    ensures { result ≡ nat_le (unsigned_abs z.now) most }
{
    (-MOST..=MOST).contains(z)
}

// The number, unless it is past the limit.
fn kept(z: i128) -> Option<i64>
    ensures { result ≡ kept z }
{
    i64::try_from(z).ok().filter(is_small)
}

pub(crate) fn product(a: i64, b: i64) -> Option<i64>
    ensures { result ≡ times a b }
{
    kept(i128::from(a) * i128::from(b))
}

pub(crate) fn sum(a: i64, b: i64) -> Option<i64>
    ensures { result ≡ plus a b }
{
    kept(i128::from(a) + i128::from(b))
}

fn difference(a: i64, b: i64) -> Option<i64>
    ensures { result ≡ less a b }
{
    kept(i128::from(a) - i128::from(b))
}

// The total and a product more.
pub(crate) fn more_by(total: i64, a: i64, b: i64) -> Option<i64>
    ensures { result ≡ more total a b }
{
    sum(total, product(a, b)?)
}

// The rest and a product less.
pub(crate) fn fewer_by(rest: i64, a: i64, b: i64) -> Option<i64>
    ensures { result ≡ fewer rest a b }
{
    difference(rest, product(a, b)?)
}
