// The things that may be packed, and the bag.
ghost use Rattle.std.specs.Prelude.{◌≡◌};
ghost use Rattle.knapsack.specs.Items.{item_at};

#[derive(Clone, Copy, Debug, PartialEq, Eq, Default)]
pub struct Item {
    pub value: i64,
    pub size: i64,
}

#[derive(Clone, Copy, Debug, PartialEq, Eq)]
pub struct Named {
    pub name: &'static str,
    pub item: Item,
}

// How many things there are.
pub const THINGS: usize = 4;

pub const ITEMS: [Named; THINGS] = [
    Named {
        name: "tent",
        item: Item { value: 40, size: 5 },
    },
    Named {
        name: "stove",
        item: Item { value: 30, size: 4 },
    },
    Named {
        name: "rope",
        item: Item { value: 50, size: 6 },
    },
    Named {
        name: "lamp",
        item: Item { value: 10, size: 3 },
    },
];

pub const CAPACITY: i64 = 10;

// The thing of this number; beyond the last, nothing at all.
pub fn item_at(v: usize) -> Item
    ensures { result ≡ item_at v }
{
    ITEMS.get(v).map_or(Item::default(), |named| named.item)
}
