// A programme below, with its limits and whole marks kept at hand.
ghost use Rattle.std.specs.Prelude.{◌≡◌, cond, nat_lt};
ghost use Rattle.bound.specs.Sheets.{line, line_of, no_line, Copied, Ordered, SmallLow, SmallHigh, sheeted, sheeted_lawful};

use crate::programme::Programme;
use std::array;

// The limits and the whole mark of one variable.
#[derive(Clone, Copy, Default)]
pub(crate) struct Line {
    low: i64,
    high: i64,
    whole: bool,
}

// The line that a programme answers for the variable.
fn line_of<P: Programme>(programme: &P, v: usize) -> Line
    ensures { result ≡ line_of (P.table programme.now) v }
{
    let (low, high) = programme.limits(v);
    let whole = programme.whole(v);
    Line { low, high, whole }
}

// It asks nothing of what is below, so that it may be named where no programme is at hand: its type says of the lines alone that
// they keep to the limits. That they are those below is what `of` promises.
#[derive(Drop)]
pub struct LimitSheet<'a, P> {
    below: &'a P,
    lines: [Line; 256],
    ghost ordered: { Ordered lines },
    ghost smalllow: { SmallLow lines },
    ghost smallhigh: { SmallHigh lines },
}

// The limits and the marks are answered from the lines, and all else is asked below, question by question: a body in the
// trait could not know what is below.
impl<'a, P: Programme> Programme for LimitSheet<'a, P> {
    const SCALE: i64 = P::SCALE;

    const VARIABLES: usize = P::VARIABLES;

    ghost table = { λ s. sheeted (P.Programme.table s.below.now) s.lines };

    ghost lawful = { λ s. sheeted_lawful (P.Programme.table s.below.now) s.lines (P.Programme.lawful s.below.now) s.ordered s.smalllow s.smallhigh };

    fn scale_value(&self) -> i64 {
        self.below.scale_value()
    }

    fn variable_count(&self) -> usize {
        self.below.variable_count()
    }

    fn rows(&self) -> usize {
        self.below.rows()
    }

    fn limits(&self, v: usize) -> (i64, i64) {
        let line = self.line(v);
        (line.low, line.high)
    }

    fn whole(&self, v: usize) -> bool {
        self.line(v).whole
    }

    fn objective(&self, v: usize) -> i64 {
        self.below.objective(v)
    }

    fn coefficient(&self, row: usize, v: usize) -> i64 {
        self.below.coefficient(row, v)
    }

    fn right_side(&self, row: usize) -> i64 {
        self.below.right_side(row)
    }
}

impl<'a, P: Programme> LimitSheet<'a, P> {
    // A sheet that means the same as what is below: its table is the table below, also with the limits and the marks of its
    // lines in place of those below.
    pub fn of(below: &'a P) -> LimitSheet<'a, P>
        ensures below { result.below.now ≡ below.now }
        ensures lines { Copied (P.Programme.table below.now) result.lines }
        ensures table { ⟦<LimitSheet<'a, P> as Programme>⟧.table result ≡ P.Programme.table below.now }
        ensures same { sheeted (P.Programme.table result.below.now) result.lines ≡ P.Programme.table below.now }
    {
        let lines = array::from_fn(|v| line_of(below, v));
        LimitSheet { below, lines }
    }

    // The line of a variable, all zeros beyond the last.
    fn line(&self, v: usize) -> Line
        ensures { result ≡ cond (nat_lt v (P.Programme.table self.now.below.now).variables) (line self.now.lines v) no_line }
    {
        if v < self.below.variable_count() {
            self.lines[v]
        } else {
            Line::default()
        }
    }
}
