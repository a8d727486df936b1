// What is wrong with an entry by itself, or beside another.
ghost use Rattle.std.specs.Prelude.{◌≡◌};
ghost use Rattle.market.specs.Services.{terms};
ghost use Rattle.market.specs.Tests.{shares, clash, strays, unfit};

use super::entries::{PRODUCTS, Service, Window};

impl Window {
    // Whether the two have a half hour in common.
    pub fn shares(self, other: Window) -> bool
        ensures { result ≡ shares self other }
    {
        u16::from(self.start) < u16::from(other.start) + u16::from(other.length)
            && u16::from(other.start) < u16::from(self.start) + u16::from(self.length)
    }

    // Whether the two are of one service and have a half hour in common.
    pub(crate) fn clashes(self, other: Window) -> bool
        ensures { result ≡ clash self other }
    {
        self.service == other.service && self.shares(other)
    }
}

impl Service {
    // Whether a quantity stands past its products.
    fn strays(self, quantities: [u16; PRODUCTS]) -> bool
        ensures { result ≡ strays (terms self).products quantities }
    {
        quantities
            .iter()
            .skip(self.products())
            .any(|quantity| *quantity != 0)
    }

    // Whether a sell order has what the service does not allow.
    pub(crate) fn unfit(self, quantities: [u16; PRODUCTS], price: i32) -> bool
        ensures { result ≡ unfit self quantities price }
    {
        self.strays(quantities) || price < self.floor()
    }
}
