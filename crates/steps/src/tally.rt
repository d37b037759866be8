// What a walk has counted: pairs found, node pairs visited, and the pairs of places measured, ruled out and taken whole.
ghost use Rattle.std.specs.Prelude.{◌≡◌, ◌+◌, ◌^◌, ◌<◌};
ghost use Rattle.written.specs.Totals.{none};
ghost use Rattle.written.specs.Visits.{ruled, whole, measured};
ghost use Rattle.steps.specs.Counted.{totals_held, visited, adding};

#[derive(Clone, Copy, PartialEq, Eq)]
pub struct Tally {
    pub found: u64,
    pub visits: u64,
    pub measured: u64,
    pub ruled: u64,
    pub whole: u64,
}

impl Tally {
    pub fn none() -> Self
        ensures { (result.found ≡ 0) × (totals_held result ≡ none) }
    {
        Self {
            found: 0,
            visits: 0,
            measured: 0,
            ruled: 0,
            whole: 0,
        }
    }

    // One node pair more is examined.
    pub fn visited(self) -> Self
        requires { self.visits < 2 ^ 63 }
        ensures { (result.found ≡ self.found) × (totals_held result ≡ visited (totals_held self)) }
    {
        Self {
            visits: self.visits + 1,
            ..self
        }
    }

    // n pairs of places are ruled out.
    pub fn ruled_out(self, n: u64) -> Self
        requires { self.ruled + n < 2 ^ 63 }
        ensures { (result.found ≡ self.found) × (totals_held result ≡ adding ruled n (totals_held self)) }
    {
        Self {
            ruled: self.ruled + n,
            ..self
        }
    }

    // n pairs of places are taken whole, and so found.
    pub fn taken_whole(self, n: u64) -> Self
        requires { (self.whole + n < 2 ^ 63) × (self.found + n < 2 ^ 63) }
        ensures { (result.found ≡ self.found + n) × (totals_held result ≡ adding whole n (totals_held self)) }
    {
        Self {
            whole: self.whole + n,
            found: self.found + n,
            ..self
        }
    }

    // n pairs of places are measured; `found` are found by now.
    pub fn measured(self, n: u64, found: u64) -> Self
        requires { self.measured + n < 2 ^ 63 }
        ensures { (result.found ≡ found) × (totals_held result ≡ adding measured n (totals_held self)) }
    {
        Self {
            measured: self.measured + n,
            found,
            ..self
        }
    }
}
