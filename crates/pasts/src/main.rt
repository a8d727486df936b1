// Makes a table of pasts over a small market, and prints what every file and every call was answered.
#![tactic(auto)]

mod files;
mod ninety;
mod shows;
mod table;

use console::{Call, NUMBERS};
use ninety::{BALANCED, DEAREST, ninety_accepted, ninety_offers};
use shows::{Planned, show_past};
use table::{PANEL, PASTS};

fn show_ninety(rt: &HostRuntime) -> anyhow::Result<()> {
    let offers = ninety_offers(rt.alloc())?;
    let accepted = ninety_accepted(rt.alloc())?;
    let clearing = Call::Clearing {
        file: &accepted,
        scratch: NUMBERS,
    };
    let planned = Planned {
        title: "ninety baskets",
        files: &[offers.as_slice()],
        calls: &[
            clearing,
            Call::Tree { file: BALANCED },
            Call::Price { file: DEAREST },
            PANEL,
        ],
    };
    show_past(rt, &planned)
}

fn run(rt: &HostRuntime) -> anyhow::Result<()> {
    for planned in &PASTS {
        show_past(rt, planned)?;
    }
    show_ninety(rt)
}

fn main(rt: HostRuntime) -> anyhow::Result<()> {
    run(&rt)
}
