// Which fields a record has: a bit for each.
ghost use Rattle.std.specs.Prelude.{◌≡◌, ◌/◌, ◌%◌, ◌^◌, ◌<◌, ◌≤◌, true, ◌==◌, count_ones, nat_lt};

#[derive(Clone, Copy)]
pub(super) struct BitMap {
    pub(super) bits: u16,
}

impl BitMap {
    // Whether this bit stands.
    pub(super) fn stands(self, bit: u8) -> bool
        ensures told { result ≡ (self.bits / 2 ^ bit % 2 == 1) }
        ensures low { result ≡ true → bit < 16 }
    {
        bit < 16 && self.bits >> bit & 1 == 1
    }

    // Whether a bit stands from this one on.
    pub(super) fn stands_from(self, bit: u8) -> bool
        ensures { result ≡ nat_lt 0 (self.bits / 2 ^ bit) }
    {
        bit < 16 && self.bits >> bit > 0
    }

    // How many bits stand below this one. By `as`, here and below: a `u32` has no `From` into a `usize`.
    pub(super) fn ones_below(self, bit: u8) -> usize
        requires { bit < 16 }
        ensures { result ≡ count_ones (self.bits % 2 ^ bit) }
    {
        (self.bits & ((1 << bit) - 1)).count_ones() as usize
    }

    // How many bits stand.
    pub(super) fn ones(self) -> usize
        ensures told { result ≡ count_ones self.bits }
        ensures few { result ≤ 16 }
    {
        self.bits.count_ones() as usize
    }
}
