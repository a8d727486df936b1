// A linear problem that is known only by questions.
ghost use Rattle.std.specs.Prelude.{◌≡◌};
ghost use Rattle.bound.specs.Tables.{Table, Lawful};

// Each question answers as the table does, beyond the counts too, and alters nothing.
pub trait Programme {
    const SCALE: i64;

    const VARIABLES: usize;

    // The problem that is meant.
    ghost table: { Self → Table };

    // Every implementation owes a proof that its table is lawful.
    ghost lawful: { (p : Self) → Lawful (table p) };

    // `SCALE` and `VARIABLES`, asked of a value: what a generic caller can rely on.
    fn scale_value(&self) -> i64
        ensures { result ≡ (table self.now).scale };

    fn variable_count(&self) -> usize
        ensures { result ≡ (table self.now).variables };

    fn rows(&self) -> usize
        ensures { result ≡ (table self.now).rows };

    // The low and the high limit of a variable.
    fn limits(&self, v: usize) -> (i64, i64)
        ensures low { result.0 ≡ (table self.now).low v }
        ensures high { result.1 ≡ (table self.now).high v };

    // Whether a variable is marked whole.
    fn whole(&self, v: usize) -> bool
        ensures { result ≡ (table self.now).whole v };

    fn objective(&self, v: usize) -> i64
        ensures { result ≡ (table self.now).objective v };

    fn coefficient(&self, row: usize, v: usize) -> i64
        ensures { result ≡ (table self.now).coefficient row v };

    fn right_side(&self, row: usize) -> i64
        ensures { result ≡ (table self.now).side row };
}
