// What is sold, and at which price, in print.
use crate::names::product_names;
use market::{PRODUCTS, Service};
use std::fmt;

// A price in pounds and pence.
#[derive(Clone, Copy, Debug, PartialEq, Eq)]
pub struct Price {
    pub pence: i32,
}

impl fmt::Display for Price {
    fn fmt<W: fmt::Write>(&self, f: &mut fmt::Formatter<W>) -> fmt::Result {
        let size = self.pence.unsigned_abs();
        let pounds = size / 100;
        let pence = size % 100;
        let sign = if self.pence < 0 { "-" } else { "" };
        write!(f, "{sign}£{pounds}.{pence:02}")
    }
}

// Quantities of a service's products at one price. Where the rules and the programmes have a sale's window and parts, this
// has the service, whose products it names.
#[derive(Clone, Copy, Debug, PartialEq, Eq)]
pub struct Sale {
    pub service: Service,
    pub quantities: [u16; PRODUCTS],
    pub price: i32,
}

impl fmt::Display for Sale {
    fn fmt<W: fmt::Write>(&self, f: &mut fmt::Formatter<W>) -> fmt::Result {
        for (product, quantity) in product_names(self.service).iter().zip(&self.quantities) {
            if *quantity != 0 {
                write!(f, " {product} {quantity} MW")?;
            }
        }
        let price = Price { pence: self.price };
        write!(f, " at {price}")
    }
}
