// Amounts in whole pence, never below what they stand for.
ghost use Rattle.std.specs.Prelude.{max};
ghost use Rattle.display.specs.Rounding.{RoundedUp};

// An amount of which so many parts make a penny (0 counts as 1), in whole pence, rounded up.
pub fn whole_pence(amount: u64, parts: u32) -> u64
    ensures { RoundedUp (max parts 1) amount result }
{
    let parts = u64::from(parts.max(1));
    amount.div_ceil(parts)
}
