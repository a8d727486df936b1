// What a market is made of. A window, a product and a basket are named by their numbers, from 0.

// How many products an order has quantities of; a Reserve service has fewer.
pub const PRODUCTS: usize = 6;

#[derive(Clone, Copy, Debug, PartialEq, Eq, Default)]
pub enum Service {
    #[default]
    Response = 1,
    Balancing = 2,
    Quick = 3,
    Slow = 4,
}

// Half hours of a day in which a service is bought.
#[derive(Clone, Copy, Debug, PartialEq, Eq, Default)]
pub struct Window {
    pub service: Service,
    pub start: u8,
    pub length: u8,
}

// An order to buy one product of a window. With `permit` it may pay above its price.
// `family` is 0 for none, and no Option: the rules are defined by the file's numbers, and 0 is one of them.
#[derive(Clone, Copy, Debug, PartialEq, Eq, Default)]
pub struct Buy {
    pub window: u8,
    pub product: u8,
    pub quantity: u16,
    pub price: i32,
    pub family: u8,
    pub permit: bool,
}

// A unit's offer for a window: what its parent sells, and at which price.
// `ring` is the number of its loop, 0 for none as `family` is of a buy.
#[derive(Clone, Copy, Debug, PartialEq, Eq, Default)]
pub struct Basket {
    pub unit: u16,
    pub window: u8,
    pub ring: u8,
    pub quantities: [u16; PRODUCTS],
    pub price: i32,
}

#[derive(Clone, Copy, Debug, PartialEq, Eq, Default)]
pub enum Role {
    #[default]
    Child,
    Substitute,
}

// What is sold with a basket's parent, or in its place.
#[derive(Clone, Copy, Debug, PartialEq, Eq, Default)]
pub struct Extra {
    pub role: Role,
    pub basket: u8,
    pub quantities: [u16; PRODUCTS],
    pub price: i32,
}

// One entry, of any kind.
#[derive(Clone, Copy, Debug, PartialEq, Eq)]
pub enum Entry {
    OfWindow(Window),
    OfBuy(Buy),
    OfBasket(Basket),
    OfExtra(Extra),
}
