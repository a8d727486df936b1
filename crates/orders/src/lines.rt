// The entries of a market, each with its number, as lines that people read.
use crate::names::product_names;
use crate::sales::{Price, Sale};
use crate::times::Time;
use market::{Basket, Buy, Extra, Role, Service, Window};
use std::fmt;

// An entry, its number, and the service of its window.
#[derive(Clone, Copy, Debug, PartialEq, Eq)]
pub struct Line<T> {
    pub service: Service,
    pub number: usize,
    pub entry: T,
}

impl fmt::Display for Line<Window> {
    fn fmt<W: fmt::Write>(&self, f: &mut fmt::Formatter<W>) -> fmt::Result {
        let number = self.number;
        let service = self.service;
        let first = u16::from(self.entry.start);
        let start = Time { half_hour: first };
        let end = Time {
            half_hour: first + u16::from(self.entry.length),
        };
        write!(f, "window {number}: {service} {start}-{end}")
    }
}

impl fmt::Display for Line<Buy> {
    fn fmt<W: fmt::Write>(&self, f: &mut fmt::Formatter<W>) -> fmt::Result {
        let number = self.number;
        let Buy {
            window,
            product,
            quantity,
            price: pence,
            family,
            permit,
        } = self.entry;
        let price = Price { pence };
        // A market's buys are of products that their services have.
        let product = product_names(self.service)
            .get(usize::from(product))
            .copied()
            .unwrap_or_default();
        write!(
            f,
            "buy {number}: window {window} {product} {quantity} MW at {price}"
        )?;
        if family != 0 {
            write!(f, ", family {family}")?;
        }
        if permit {
            f.write_str(", may pay more")?;
        }
        Ok(())
    }
}

impl fmt::Display for Line<Basket> {
    fn fmt<W: fmt::Write>(&self, f: &mut fmt::Formatter<W>) -> fmt::Result {
        let service = self.service;
        let number = self.number;
        let Basket {
            unit,
            window,
            ring,
            quantities,
            price,
        } = self.entry;
        let sale = Sale {
            service,
            quantities,
            price,
        };
        write!(f, "basket {number}: unit {unit}, window {window}")?;
        if ring != 0 {
            write!(f, ", loop {ring}")?;
        }
        write!(f, ": parent{sale}")
    }
}

impl fmt::Display for Line<Extra> {
    fn fmt<W: fmt::Write>(&self, f: &mut fmt::Formatter<W>) -> fmt::Result {
        let service = self.service;
        let number = self.number;
        let Extra {
            role,
            quantities,
            price,
            ..
        } = self.entry;
        let role = match role {
            Role::Child => "child",
            Role::Substitute => "substitute",
        };
        let sale = Sale {
            service,
            quantities,
            price,
        };
        write!(f, "  {role} {number}:{sale}")
    }
}
