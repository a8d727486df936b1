// Amounts of one order, from its numbers alone. Each has a size that no sum of a market's amounts outgrows.
ghost use Rattle.std.specs.Prelude.{◌≡◌, ◌*◌, ◌≤◌, pos, ◌*ℤ◌};
ghost use Rattle.numbers.specs.Sums.{Within};

// quantity × parts
pub fn volume(quantity: u16, parts: i32) -> i64
    requires { (quantity ≤ 9999) × Within 10000 parts }
    ensures { (result ≡ pos quantity *ℤ parts) × Within 99990000 result }
{
    i64::from(quantity) * i64::from(parts)
}

// price × quantity × parts
pub fn worth(price: i32, quantity: u16, parts: i32) -> i64
    requires { Within 99999 price × (quantity ≤ 9999) × Within 10000 parts }
    ensures { (result ≡ price *ℤ pos quantity *ℤ parts) × Within (quantity * 999990000) result }
{
    i64::from(price) * i64::from(quantity) * i64::from(parts)
}
