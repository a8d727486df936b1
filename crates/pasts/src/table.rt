// The table of pasts. Its calls are constants, since a constant calls no function, and an array of pasts that lend arrays made
// in the same function is not taken by the check.
use crate::files::*;
use crate::shows::Planned;
use console::{Call, LINE_ROOM, NUMBERS};

pub const PANEL: Call<'static> = Call::Panel { room: LINE_ROOM };

const CLEAR_FULL: Call<'static> = Call::Clearing {
    file: FULL,
    scratch: NUMBERS,
};

const CLEAR_FULL_AT_6999: Call<'static> = Call::Clearing {
    file: FULL_AT_6999,
    scratch: NUMBERS,
};

const CLEAR_FULL_AT_9000: Call<'static> = Call::Clearing {
    file: FULL_AT_9000,
    scratch: NUMBERS,
};

const CLEAR_FULL_AT_9001: Call<'static> = Call::Clearing {
    file: FULL_AT_9001,
    scratch: NUMBERS,
};

const CLEAR_HALF: Call<'static> = Call::Clearing {
    file: HALF,
    scratch: NUMBERS,
};

const CLEAR_NOTHING: Call<'static> = Call::Clearing {
    file: b"",
    scratch: NUMBERS,
};

const FULL_SHORT: Call<'static> = Call::Clearing {
    file: FULL,
    scratch: NUMBERS - 1,
};

const PANEL_SHORT: Call<'static> = Call::Panel {
    room: LINE_ROOM - 1,
};

const PRICE_EMPTY: Call<'static> = Call::Price { file: b"" };

const PRICE_NEARLY_TIGHT: Call<'static> = Call::Price {
    file: NEARLY_TIGHT_PRICE,
};

const PRICE_NO_WEIGHTS: Call<'static> = Call::Price { file: NO_WEIGHTS };

const PRICE_TIGHT: Call<'static> = Call::Price { file: TIGHT_PRICE };

const TREE_EMPTY: Call<'static> = Call::Tree { file: b"" };

const TREE_NEARLY_TIGHT: Call<'static> = Call::Tree { file: NEARLY_TIGHT };

const TREE_NO_WEIGHTS: Call<'static> = Call::Tree { file: NO_WEIGHTS };

const TREE_TIGHT: Call<'static> = Call::Tree { file: TIGHT };

const TREE_UNFINISHED: Call<'static> = Call::Tree { file: UNFINISHED };

pub const PASTS: [Planned<'static>; 21] = [
    Planned {
        title: "no market file",
        files: &[],
        calls: &[CLEAR_FULL, CLEAR_NOTHING, PANEL],
    },
    Planned {
        title: "a market in two files",
        files: &[WANTED, OFFERED],
        calls: &[CLEAR_FULL],
    },
    Planned {
        title: "offers before their window",
        files: &[OFFERED, WANTED],
        calls: &[CLEAR_FULL],
    },
    Planned {
        title: "a refused file keeps the entries before",
        files: &[OVERLAPPING],
        calls: &[CLEAR_FULL, TREE_TIGHT, PANEL],
    },
    Planned {
        title: "a seller loses",
        files: &[MARKET],
        calls: &[CLEAR_FULL_AT_6999, PANEL],
    },
    Planned {
        title: "at the buyer's price",
        files: &[MARKET],
        calls: &[CLEAR_FULL_AT_9000, PANEL],
    },
    Planned {
        title: "the buyer pays too much",
        files: &[MARKET],
        calls: &[CLEAR_FULL_AT_9001, PANEL],
    },
    Planned {
        title: "short scratch",
        files: &[MARKET],
        calls: &[FULL_SHORT, TREE_TIGHT, PANEL],
    },
    Planned {
        title: "a worse clearing is not held",
        files: &[MARKET],
        calls: &[CLEAR_FULL, TREE_TIGHT, CLEAR_HALF, PANEL],
    },
    Planned {
        title: "a tree alone",
        files: &[MARKET],
        calls: &[TREE_TIGHT, PANEL],
    },
    Planned {
        title: "the smaller bound is kept",
        files: &[MARKET],
        calls: &[
            CLEAR_FULL,
            TREE_NO_WEIGHTS,
            PANEL,
            TREE_TIGHT,
            PANEL,
            TREE_NO_WEIGHTS,
            PANEL,
        ],
    },
    Planned {
        title: "a gap of 20 grains",
        files: &[MARKET],
        calls: &[CLEAR_FULL, TREE_NEARLY_TIGHT, PANEL],
    },
    Planned {
        title: "unfinished and empty trees",
        files: &[MARKET],
        calls: &[TREE_UNFINISHED, TREE_EMPTY, PRICE_EMPTY, PANEL],
    },
    Planned {
        title: "a price bound alone",
        files: &[MARKET],
        calls: &[CLEAR_FULL, PRICE_NO_WEIGHTS, PANEL],
    },
    Planned {
        title: "the smaller price bound is kept",
        files: &[MARKET],
        calls: &[
            CLEAR_FULL,
            PRICE_NEARLY_TIGHT,
            PANEL,
            PRICE_TIGHT,
            PANEL,
            PRICE_NO_WEIGHTS,
            PANEL,
        ],
    },
    Planned {
        title: "a better clearing drops the price bound",
        files: &[MARKET],
        calls: &[CLEAR_HALF, PRICE_NO_WEIGHTS, PANEL, CLEAR_FULL, PANEL],
    },
    Planned {
        title: "an equal one does not",
        files: &[MARKET],
        calls: &[CLEAR_FULL, PRICE_TIGHT, CLEAR_FULL, PANEL],
    },
    Planned {
        title: "nor a dearer one",
        files: &[MARKET],
        calls: &[CLEAR_FULL, PRICE_TIGHT, CLEAR_FULL_AT_9000, PANEL],
    },
    Planned {
        title: "a cheaper one does",
        files: &[MARKET],
        calls: &[
            CLEAR_FULL_AT_9000,
            PRICE_NO_WEIGHTS,
            PANEL,
            CLEAR_FULL,
            PANEL,
        ],
    },
    Planned {
        title: "a short buffer",
        files: &[MARKET],
        calls: &[CLEAR_FULL, TREE_TIGHT, PANEL_SHORT, PANEL],
    },
    Planned {
        title: "all at once",
        files: &[MARKET],
        calls: &[CLEAR_FULL, TREE_TIGHT, PRICE_TIGHT, PANEL],
    },
];
