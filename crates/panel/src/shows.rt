// What the files were answered, and the panel line. The program `pasts` prints answers too, in other words: it tells the
// amounts and the layers, and what stands behind the line.
use console::{Answer, Refusal};
use std::fmt;
use std::io::Write;

// The number and the place of a refusal. The market's refusals and the console's are two types, with faults of their own,
// so each has its `From`.
#[derive(Clone, Copy, Debug, PartialEq, Eq)]
struct Verdict {
    number: u8,
    place: usize,
}

impl From<market::Refusal> for Verdict {
    fn from(refusal: market::Refusal) -> Verdict {
        Verdict {
            number: refusal.fault.number(),
            place: refusal.place,
        }
    }
}

impl From<Refusal> for Verdict {
    fn from(refusal: Refusal) -> Verdict {
        Verdict {
            number: refusal.fault.number(),
            place: refusal.place,
        }
    }
}

impl fmt::Display for Verdict {
    fn fmt<W: fmt::Write>(&self, f: &mut fmt::Formatter<W>) -> fmt::Result {
        let number = self.number;
        let place = self.place;
        write!(f, "{number} {place}")
    }
}

// The name of a file, and its verdict: both numbers are 0 where nothing is refused.
pub fn show_told<T, E: Copy>(
    rt: &HostRuntime,
    name: &str,
    told: &Result<T, E>,
) -> anyhow::Result<()>
where
    Verdict: From<E>,
{
    match told {
        Ok(_) => println!(rt; "{name} 0 0")?,
        Err(refusal) => {
            let verdict = Verdict::from(*refusal);
            println!(rt; "{name} {verdict}")?;
        }
    }
    Ok(())
}

// The line is as many of the bytes as the panel said.
fn show_panel(rt: &HostRuntime, told: &Result<usize, Refusal>, bytes: &[u8]) -> anyhow::Result<()> {
    match told {
        Ok(length) => {
            if let Some(line) = bytes.get(..*length) {
                rt.stdout().write_all(line)?;
            }
            Ok(())
        }
        Err(_) => show_told(rt, "panel", told),
    }
}

pub fn show_answer(rt: &HostRuntime, answer: &Answer) -> anyhow::Result<()> {
    match answer {
        Answer::Clearing(told) => show_told(rt, "clearing", told),
        Answer::Tree(told) => show_told(rt, "tree", told),
        Answer::Price(told) => show_told(rt, "price", told),
        Answer::Panel(told, bytes) => show_panel(rt, told, bytes),
    }
}
