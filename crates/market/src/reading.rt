// The entry that a record spells, where each number is within its limits: a function for each definition of specs/Reading,
// and no method, since the record is of a crate below.
ghost use Rattle.std.specs.Prelude.{◌≡◌, ◌≤◌};
ghost use Rattle.records.specs.Read.{content};
ghost use Rattle.market.specs.Lines.{between, price_ok};
ghost use Rattle.market.specs.Reading.{limited, field, byte_of, price_of, quantities_of, are_quantities, read_window, read_buy, read_basket, read_extra, read_entry};

use super::entries::{Basket, Buy, Entry, Extra, PRODUCTS, Role, Service, Window};
use super::faults::Fault;
use records::{Kind, Record};

const WINDOW: u8 = 1;

const BUY: u8 = 2;

const BASKET: u8 = 3;

const CHILD: u8 = 4;

const SUBSTITUTE: u8 = 5;

// The kinds of record in a market file, with how many fields each has.
pub(crate) const KINDS: [Kind; 5] = [
    Kind {
        number: WINDOW,
        fields: 3,
    },
    Kind {
        number: BUY,
        fields: 6,
    },
    Kind {
        number: BASKET,
        fields: 10,
    },
    Kind {
        number: CHILD,
        fields: 8,
    },
    Kind {
        number: SUBSTITUTE,
        fields: 8,
    },
];

// A field that is within limits. Each caller narrows it by `as`, which its limits prove to lose nothing; `try_from` would have
// an error that cannot come.
fn within(given: &Record, i: u8, low: i64, high: i64) -> Result<i64, Fault>
    ensures { result ≡ limited (between low high (field (content given.now).fields i)) (field (content given.now).fields i) }
{
    let number = given.field(i);
    if (low..=high).contains(&number) {
        Ok(number)
    } else {
        Err(Fault::OutsideLimits)
    }
}

// A field that names something; 255, which names nothing, for any that is no byte. No Option: an entry that names nothing
// is read as any other, and refused as absent where its other numbers keep their limits.
fn byte(given: &Record, i: u8) -> u8
    ensures { result ≡ byte_of (field (content given.now).fields i) }
{
    u8::try_from(given.field(i)).unwrap_or(u8::MAX)
}

// A field that is a price of some service.
fn price(given: &Record, i: u8) -> Result<i32, Fault>
    ensures { result ≡ limited (price_ok (field (content given.now).fields i)) (price_of (field (content given.now).fields i)) }
{
    Ok(within(given, i, -99_999, 99_999)? as i32)
}

// The quantities of the products, from a field on.
fn quantities(given: &Record, first: u8) -> Result<[u16; PRODUCTS], Fault>
    requires { first ≤ 10 }
    ensures { result ≡ limited (are_quantities (content given.now).fields first) (quantities_of (content given.now).fields first) }
{
    // A loop: `array::try_from_fn` does not say that its closure kept the record and the field that it borrows.
    let mut quantities = [0; PRODUCTS];
    for (p, quantity) in quantities.iter_mut().enumerate() {
        *quantity = within(given, first + p as u8, 0, 999)? as u16;
    }
    Ok(quantities)
}

pub(crate) fn window(given: &Record) -> Result<Window, Fault>
    ensures { result ≡ read_window (content given.now).fields }
{
    let service = Service::try_from(byte(given, 0))?;
    let start = within(given, 1, 0, 49)? as u8;
    let length = within(given, 2, 1, 50)? as u8;
    if start + length > 50 {
        return Err(Fault::OutsideLimits);
    }
    Ok(Window {
        service,
        start,
        length,
    })
}

pub(crate) fn buy(given: &Record) -> Result<Buy, Fault>
    ensures { result ≡ read_buy (content given.now).fields }
{
    Ok(Buy {
        window: byte(given, 0),
        product: byte(given, 1),
        quantity: within(given, 2, 1, 9999)? as u16,
        price: price(given, 3)?,
        family: within(given, 4, 0, 64)? as u8,
        permit: within(given, 5, 0, 1)? == 1,
    })
}

pub(crate) fn basket(given: &Record) -> Result<Basket, Fault>
    ensures { result ≡ read_basket (content given.now).fields }
{
    Ok(Basket {
        unit: within(given, 0, 1, 65_535)? as u16,
        window: byte(given, 1),
        ring: within(given, 2, 0, 255)? as u8,
        quantities: quantities(given, 3)?,
        price: price(given, 9)?,
    })
}

// A child or substitute, which sells something.
pub(crate) fn extra(role: Role, given: &Record) -> Result<Extra, Fault>
    ensures { result ≡ read_extra role (content given.now).fields }
{
    let quantities = quantities(given, 1)?;
    if quantities == [0; PRODUCTS] {
        return Err(Fault::OutsideLimits);
    }
    Ok(Extra {
        role,
        basket: byte(given, 0),
        quantities,
        price: price(given, 7)?,
    })
}

// The entry of a market file's record, by its kind.
pub(crate) fn entry(given: &Record) -> Result<Entry, Fault>
    ensures { result ≡ read_entry (content given.now) }
{
    match given.kind {
        WINDOW => Ok(Entry::OfWindow(window(given)?)),
        BUY => Ok(Entry::OfBuy(buy(given)?)),
        BASKET => Ok(Entry::OfBasket(basket(given)?)),
        CHILD => Ok(Entry::OfExtra(extra(Role::Child, given)?)),
        // the reader hands out no other kind
        _ => Ok(Entry::OfExtra(extra(Role::Substitute, given)?)),
    }
}
