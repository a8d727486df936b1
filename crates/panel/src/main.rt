// Makes one past of the market, the clearing, the tree and the price file in the folder that it runs in, and prints what
// each was answered, and the panel line.
#![tactic(auto)]

mod files;
mod shows;

use console::{Call, LINE_ROOM, NUMBERS, Past, replay};
use files::Files;
use shows::{show_answer, show_told};
use std::alloc::{AllocError, Global};

fn make_past(heap: Global, files: &Files) -> Result<Past, AllocError> {
    let calls = [
        Call::Clearing {
            file: &files.clearing,
            scratch: NUMBERS,
        },
        Call::Tree { file: &files.tree },
        Call::Price { file: &files.price },
        Call::Panel { room: LINE_ROOM },
    ];
    replay(heap, &[files.market.as_slice()], &calls)
}

fn run(rt: &HostRuntime) -> anyhow::Result<()> {
    let files = Files::read(rt)?;
    let past = make_past(rt.alloc(), &files)?;
    for answer in &past.entered {
        show_told(rt, "market", answer)?;
    }
    for answer in &past.answers {
        show_answer(rt, answer)?;
    }
    Ok(())
}

fn main(rt: HostRuntime) -> anyhow::Result<()> {
    run(&rt)
}
