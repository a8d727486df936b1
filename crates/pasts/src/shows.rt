// A past, and what is printed of it. The program `panel` prints answers too, as numbers and without amounts and layers.
use console::{Answer, Call, Refusal, replay};
use std::fmt;
use std::io::Write;

// What is told of a refusal. The market's refusals and the console's are two types, with faults of their own, so each has
// its `From`.
#[derive(Clone, Copy, Debug, PartialEq, Eq)]
struct Refused {
    number: u8,
    layer: u8,
    place: usize,
}

impl From<market::Refusal> for Refused {
    fn from(refusal: market::Refusal) -> Refused {
        Refused {
            number: refusal.fault.number(),
            layer: refusal.fault.layer(),
            place: refusal.place,
        }
    }
}

impl From<Refusal> for Refused {
    fn from(refusal: Refusal) -> Refused {
        Refused {
            number: refusal.fault.number(),
            layer: refusal.fault.layer(),
            place: refusal.place,
        }
    }
}

impl fmt::Display for Refused {
    fn fmt<W: fmt::Write>(&self, f: &mut fmt::Formatter<W>) -> fmt::Result {
        let number = self.number;
        let layer = self.layer;
        let place = self.place;
        write!(f, "refused: {number} of layer {layer} at {place}")
    }
}

fn show_refused<E: Copy>(rt: &HostRuntime, name: &str, refusal: &E) -> anyhow::Result<()>
where
    Refused: From<E>,
{
    let refused = Refused::from(*refusal);
    println!(rt; "  {name} {refused}")?;
    Ok(())
}

fn show_entered(rt: &HostRuntime, answer: &Result<(), market::Refusal>) -> anyhow::Result<()> {
    match answer {
        Ok(()) => println!(rt; "  market accepted")?,
        Err(e) => show_refused(rt, "market", e)?,
    }
    Ok(())
}

fn show_told(rt: &HostRuntime, name: &str, told: &Result<i64, Refusal>) -> anyhow::Result<()> {
    match told {
        Ok(amount) => println!(rt; "  {name} accepted: {amount}")?,
        Err(e) => show_refused(rt, name, e)?,
    }
    Ok(())
}

// The line, and the bytes after it that are not 0; of a refused panel all are after it.
fn show_panel(rt: &HostRuntime, told: &Result<usize, Refusal>, bytes: &[u8]) -> anyhow::Result<()> {
    let written = match told {
        Ok(length) => {
            print!(rt; "  ")?;
            if let Some(line) = bytes.get(..*length) {
                rt.stdout().write_all(line)?;
            }
            *length
        }
        Err(e) => {
            show_refused(rt, "panel", e)?;
            0
        }
    };
    for byte in bytes.iter().skip(written).filter(|byte| **byte != 0) {
        println!(rt; "  a byte beyond the line is {byte}")?;
    }
    Ok(())
}

fn show_answer(rt: &HostRuntime, answer: &Answer) -> anyhow::Result<()> {
    match answer {
        Answer::Clearing(told) => show_told(rt, "clearing", told),
        Answer::Tree(told) => show_told(rt, "tree", told),
        Answer::Price(told) => show_told(rt, "price", told),
        Answer::Panel(told, bytes) => show_panel(rt, told, bytes),
    }
}

// A past to be made: its title, its market files and its calls.
#[derive(Clone, Copy, Debug, PartialEq, Eq)]
pub struct Planned<'a> {
    pub title: &'a str,
    pub files: &'a [&'a [u8]],
    pub calls: &'a [Call<'a>],
}

// Makes a past, and prints its title and every answer.
pub fn show_past(rt: &HostRuntime, planned: &Planned<'_>) -> anyhow::Result<()> {
    let title = planned.title;
    println!(rt; "{title}")?;
    let past = replay(rt.alloc(), planned.files, planned.calls)?;
    for answer in &past.entered {
        show_entered(rt, answer)?;
    }
    for answer in &past.answers {
        show_answer(rt, answer)?;
    }
    Ok(())
}
