// The tree of a file, checked node by node over a programme.
ghost use Rattle.std.specs.Prelude.{◌≡◌, ◌-◌, IfOk, OnOk};
ghost use Rattle.records.specs.Readers.{file_of, place_of};
ghost use Rattle.bound.specs.Tables.{Small};
ghost use Rattle.bound.specs.Points.{Bounds};
ghost use Rattle.bound.specs.Layers.{fixed, holding};
ghost use Rattle.bound.specs.Paths.{held_of, count_of, below_of, Free, SamePath};
ghost use Rattle.bound.specs.Checks.{allowed, node_at, finished, checked, Gives};
ghost use Rattle.bound.specs.Trees.{Proves, Accepts};
ghost use Rattle.bound.specs.Refusals.{Refused, refused_by};
ghost use Rattle.bound.specs.Piles.{EveryPileIsBounded};

use crate::faults::{Fault, Refusal};
use crate::fixing::Fixing;
use crate::programme::Programme;
use crate::reader::TreeReader;
use crate::sheet::LimitSheet;
use crate::tree::{Found, open};

// The most splits on a path.
const DEEPEST: usize = 64;

// Whether a split may be on the variable.
fn may_split<P: Programme>(programme: &P, variable: usize) -> bool
    ensures { result ≡ allowed (P.table programme.now) variable }
{
    programme.whole(variable) && programme.limits(variable) == (0, 1)
}

// The way down a tree: the reader of its file, and the variables that the splits of the path hold over a pile.
#[derive(Drop)]
struct Descent<'f, 'p, P> {
    reader: TreeReader<'f>,
    fixing: Fixing<'p, P>,
}

impl<'f, 'p, P: Programme> Descent<'f, 'p, P> {
    // The bound of the node at the reader's place, below the splits that are held.
    #[cycle(node_side)]
    fn node(&mut self) -> Result<i64, Refusal>
        ensures file { file_of self.new.reader.reader ≡ file_of self.old.reader.reader }
        ensures path { OnOk result (SamePath self.old.fixing self.new.fixing) }
        ensures gives { Gives (node_at (64 - count_of self.old.fixing) (fixed (P.Programme.table (below_of self.old.fixing)) (held_of self.old.fixing)) (file_of self.old.reader.reader) (place_of self.old.reader.reader)) result (place_of self.new.reader.reader) }
    {
        let place = self.reader.place();
        match open(&mut self.reader, &self.fixing)? {
            Found::Branch(variable) => {
                if !may_split(&self.fixing, variable) {
                    return Err(Fault::SplitBarred.at(place));
                }
                if self.fixing.count() == DEEPEST {
                    return Err(Fault::TooDeep.at(place));
                }
                let off = self.side(variable, 0)?;
                let on = self.side(variable, 1)?;
                Ok(off.max(on))
            }
            Found::Leaf(bound) => Ok(bound),
        }
    }

    // The bound of one side of a split, which holds the variable at the value to the side's end.
    #[cycle(node_side)]
    fn side(&mut self, variable: usize, value: i64) -> Result<i64, Refusal>
        requires free { Free (P.Programme.table (below_of self.old.fixing)).variables self.old.fixing variable }
        requires small { Small value }
        ensures file { file_of self.new.reader.reader ≡ file_of self.old.reader.reader }
        ensures path { OnOk result (SamePath self.old.fixing self.new.fixing) }
        ensures gives { Gives (node_at (63 - count_of self.old.fixing) (holding (fixed (P.Programme.table (below_of self.old.fixing)) (held_of self.old.fixing)) variable value) (file_of self.old.reader.reader) (place_of self.old.reader.reader)) result (place_of self.new.reader.reader) }
    {
        // It is known and free, so it can be held.
        let Ok(_) = self.fixing.hold(variable, value) else {
            unreachable();
        };
        let bound = self.node()?;
        self.fixing.release();
        Ok(bound)
    }

    // The bound of a whole tree, unless bytes stand after it.
    fn finish(&self, bound: i64) -> Result<i64, Refusal>
        ensures { result ≡ finished (file_of self.now.reader.reader) bound (place_of self.now.reader.reader) }
    {
        if !self.reader.at_end() {
            return Err(Fault::NotOneTree.at(self.reader.place()));
        }
        Ok(bound)
    }
}

// The bound of the tree that the file is, over an empty fixing over a sheet over the pile.
fn walk<P: Programme>(pile: &P, file: &[u8]) -> Result<i64, Refusal>
    ensures { result ≡ checked (P.table pile.now) file.now }
{
    let reader = TreeReader::open(file)?;
    let sheet = LimitSheet::of(pile);
    let mut descent = Descent {
        reader,
        fixing: Fixing::over(&sheet),
    };
    let bound = descent.node()?;
    descent.finish(bound)
}

// The bound that the tree of a file proves of the pile:
// `exact`: the answer, bound or refusal, is what the definitions make of the pile's table and the file alone;
// `proves`: a file that is accepted is a tree that fits the table, and the answer is the tree's bound;
// `sound`: every point of the pile over any denominator keeps the bound;
// `accepts`: every tree that fits the table, and whose bound can be summed, is accepted;
// `refuses`: a file that is refused begins a tree that fits the table, up to the place of the refusal, and is wrong there.
pub fn check<P: Programme>(pile: &P, file: &[u8]) -> Result<i64, Refusal>
    ensures exact { result ≡ checked (P.table pile.now) file.now }
    ensures proves { IfOk result (λ b. Proves (P.table pile.now) file.now b) }
    ensures sound { IfOk result (λ b. Bounds (P.table pile.now) b) }
    ensures accepts { Accepts (P.table pile.now) file.now result }
    ensures refuses { refused_by result (λ e. Refused (P.table pile.now) file.now e) }
{
    walk(pile, file)
}

// The same of every lawful table under any pile of layers, with no programme at hand. Its answer says nothing: what it
// promises is the law.
pub fn every_pile_is_bounded() -> bool
    ensures { EveryPileIsBounded }
{
    true
}
