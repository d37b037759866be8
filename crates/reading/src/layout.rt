// Where the parts of a tree lie in a job.
ghost use Rattle.std.specs.Prelude.{◌≡◌, ◌+◌, ◌*◌, ◌^◌, ◌≤◌, ◌<◌, length, false, MatchOption};
ghost use Rattle.reading.specs.Trees.{tree_fits};
ghost use Rattle.reading.specs.Lays.{Lays};

use crate::little::u32_at;

// Where a part begins, and how many numbers it has.
#[derive(Clone, Copy, Debug, PartialEq, Eq)]
pub struct Part {
    pub at: usize,
    pub len: usize,
}

impl Part {
    // The place after its last number, of `width` bytes each.
    fn end(self, width: usize) -> usize
        requires { self.at + width * self.len < 2 ^ 64 }
        ensures { result ≡ self.at + width * self.len }
    {
        self.at + width * self.len
    }
}

// The parts of a tree, and where the tree ends.
#[derive(Clone, Copy, Debug, PartialEq, Eq)]
pub struct Layout {
    pub starts: Part,
    pub stems: Part,
    pub items: Part,
    pub coords: Part,
    pub end: usize,
}

// K columns of n: below 2^40, so nothing wraps.
fn coord_count(k: usize, n: usize) -> usize
    requires { (k < 256) × (n < 4294967296) }
    ensures { (result ≡ k * n) × (result < 1099511627776) }
{
    k * n
}

// Leaf count, point count, starts, stems, items, coordinates from a place on; none where the job ends before they do.
#[tactic(auto, using(crate::proofs::Fitting::few_stems))]
pub fn lay(s: &[u8], at: usize, k: usize) -> Option<Layout>
    requires { (at ≤ length s.now) × (length s.now ≤ 16384) × (k < 256) }
    ensures { MatchOption result (tree_fits s.now at k ≡ false) (λ l. Lays k s.now at l) }
{
    if s.len() < at + 8 {
        return None;
    }
    let m = u32_at(s, at);
    if 4096 < m {
        return None;
    }
    let n = u32_at(s, at + 4) as usize;
    let starts = Part {
        at: at + 8,
        len: m as usize + 1,
    };
    let stems = Part {
        at: starts.end(4),
        len: tree::stem_count(m),
    };
    let items = Part {
        at: stems.end(8),
        len: n,
    };
    let coords = Part {
        at: items.end(4),
        len: coord_count(k, n),
    };
    let end = coords.end(8);
    if s.len() < end {
        return None;
    }
    Some(Layout {
        starts,
        stems,
        items,
        coords,
        end,
    })
}
