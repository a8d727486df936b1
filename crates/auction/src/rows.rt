// What the rows of the two programmes are about. The tables in specs/ and the code speak of the same rows, so a row that asks
// nothing is one of them, `Zero`, with coefficients and a right side of its own, and not an absent row.

// A row of the acceptance programme.
#[derive(Clone, Copy)]
pub(crate) enum Row {
    // on a line, what is bought is at most what is sold
    Line(usize),
    // a child has no more parts than its basket's parent
    Child(usize),
    // nor have the substitutes of a basket together
    Substitutes(usize),
    // a family of buys is accepted once at most
    Family(usize),
    // a basket has at most the parts of its loop's first
    AtMostFirst(usize),
    // and at least those
    AtLeastFirst(usize),
    // of the baskets of one unit that cover the first half hour of this one, one is accepted at most
    Unit(usize),
    // a row of something that is not entered
    Zero,
}

// A row of the price programme.
#[derive(Clone, Copy)]
pub(crate) enum PriceRow {
    // a child or substitute does not lose
    Extra(usize),
    // nor does a basket without a loop, over all its orders
    Basket(usize),
    // nor do the baskets of a loop together; the basket is the loop's first
    Loop(usize),
    // a buy pays at most its own price
    Buy(usize),
    // a row that asks nothing
    Zero,
}

// What is measured of a sell order. The tables in specs/ name it too: a row's coefficients and its right side are one sum of
// one measure or the other.
#[derive(Clone, Copy)]
pub(crate) enum Measure {
    // the quantity that it offers on a line
    On(usize),
    // its price times its total quantity
    Value,
}
