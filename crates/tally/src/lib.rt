// A count of entries that were compared and of those that differ, which the replay programs keep.
#![tactic(auto)]

ghost use Rattle.std.specs.Prelude.{◌+◌, cond, ◌≡◌, Some};
ghost use Rattle.tally.specs.Tally.{capped, Counted, tally_text};

use std::fmt;

// How many entries were compared, and how many differences there are.
#[derive(Clone, Copy, Debug, Default, PartialEq, Eq)]
pub struct Tally {
    pub compared: u64,
    pub differ: u64,
}

impl Tally {
    pub fn new() -> Tally
        ensures { (result.compared ≡ 0) × (result.differ ≡ 0) }
    {
        Tally::default()
    }

    // One more entry, which is the same on both sides or not.
    pub fn entry(&mut self, same: bool)
        ensures { Counted self.old 1 (cond same 0 1) self.new }
    {
        self.count(1, same);
    }

    // A difference, unless `good`, that belongs to no entry.
    pub fn expect(&mut self, good: bool)
        ensures { Counted self.old 0 (cond good 0 1) self.new }
    {
        self.count(0, good);
    }

    // So many entries more, and a difference unless `good`.
    fn count(&mut self, entries: u64, good: bool)
        ensures { Counted self.old entries (cond good 0 1) self.new }
    {
        *self = self.with(Tally {
            compared: entries,
            differ: u64::from(!good),
        });
    }

    // Both counts together.
    pub fn with(self, other: Tally) -> Tally
        ensures { Counted self other.compared other.differ result }
    {
        Tally {
            compared: self.compared.saturating_add(other.compared),
            differ: self.differ.saturating_add(other.differ),
        }
    }
}

// As `39 compared, 0 differ`.
impl fmt::Display for Tally {
    ghost output = { λ t. Some (tally_text t) };

    fn fmt<W: fmt::Write>(&self, f: &mut fmt::Formatter<W>) -> fmt::Result {
        write!(f, "{} compared, {} differ", self.compared, self.differ)
    }
}
