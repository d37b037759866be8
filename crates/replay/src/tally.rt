// How many were compared of each kind, and how many differ.
ghost use Rattle.std.specs.Prelude.{◌≡◌, ◌+◌, ◌-◌, ◌^◌, min, IsTrue, IsFalse};

use metric::Edge;
use reading::Mode;

#[derive(Clone, Copy, Default)]
pub struct Count {
    pub made: u64,
    pub different: u64,
}

impl Count {
    // One more, alike or different, up to the largest number there is.
    pub fn count(&mut self, same: bool)
        ensures made { self.new.made ≡ min (self.old.made + 1) (2 ^ 64 - 1) }
        ensures same { IsTrue same → self.new.different ≡ self.old.different }
        ensures different { IsFalse same → self.new.different ≡ min (self.old.different + 1) (2 ^ 64 - 1) }
    {
        self.made = self.made.saturating_add(1);
        if !same {
            self.different = self.different.saturating_add(1);
        }
    }

    // Both together, up to the largest number there is.
    pub fn and(self, other: Count) -> Count
        ensures made { result.made ≡ min (self.made + other.made) (2 ^ 64 - 1) }
        ensures different { result.different ≡ min (self.different + other.different) (2 ^ 64 - 1) }
    {
        Count {
            made: self.made.saturating_add(other.made),
            different: self.different.saturating_add(other.different),
        }
    }
}

// The joins of each mode, those that no mode can be read of, and the texts of jobs.
#[derive(Clone, Copy, Default)]
pub struct Tally {
    pub pairs_up_to: Count,
    pub pairs_under: Count,
    pub counts_up_to: Count,
    pub counts_under: Count,
    pub nearest: Count,
    pub unreadable: Count,
    pub texts: Count,
}

impl Tally {
    // One more join: of a mode, or of none that can be read.
    pub fn join(&mut self, mode: Option<Mode>, same: bool) {
        match mode {
            Some(Mode::Pairs(Edge::UpTo)) => self.pairs_up_to.count(same),
            Some(Mode::Pairs(Edge::Under)) => self.pairs_under.count(same),
            Some(Mode::Counts(Edge::UpTo)) => self.counts_up_to.count(same),
            Some(Mode::Counts(Edge::Under)) => self.counts_under.count(same),
            Some(Mode::Nearest) => self.nearest.count(same),
            None => self.unreadable.count(same),
        }
    }

    // All joins.
    pub fn joins(self) -> Count {
        self.pairs_up_to
            .and(self.pairs_under)
            .and(self.counts_up_to)
            .and(self.counts_under)
            .and(self.nearest)
            .and(self.unreadable)
    }
}
