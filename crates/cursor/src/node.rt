// A node of a tree: where it stands, which leaves it spans, how it splits.
ghost use Rattle.std.specs.Prelude.{◌≡◌, ◌≤◌, ◌<◌};
ghost use Rattle.written.specs.LentTree.{levels as levels_over, is_leaf, span as span_of, axis as axis_of, near as near_child, far as far_child};
ghost use Rattle.cursor.specs.Held.{node_of, root_over, Splits};

// A stem place and a leaf place count separate things.
#[derive(Clone, Copy)]
pub struct StemIdx(pub u32);

#[derive(Clone, Copy)]
pub struct LeafIdx(pub u32);

// A node: its stem, its leaves from first up to end, its level, and the levels left below it.
#[derive(Clone, Copy)]
pub struct Cursor {
    pub stem: StemIdx,
    pub first: LeafIdx,
    pub end: LeafIdx,
    pub level: u32,
    pub remaining: u32,
}

#[derive(Clone, Copy)]
pub struct Halves {
    pub near: Cursor,
    pub far: Cursor,
}

// The levels over m leaves: the first exponent whose power of two is not below m.
pub fn levels(m: u32) -> u32
    requires { m ≤ 4096 }
    ensures { result ≡ levels_over m }
{
    for r in 0..12u32 {
        if m <= 1u32 << r {
            return r;
        }
    }
    12
}

impl Cursor {
    // Node 1, over all m leaves.
    pub fn root(m: u32) -> Self
        requires { m ≤ 4096 }
        ensures { node_of result ≡ root_over m }
    {
        let remaining = levels(m);
        Self {
            stem: StemIdx(1),
            first: LeafIdx(0),
            end: LeafIdx(m),
            level: 0,
            remaining,
        }
    }

    // No levels are left, however many leaves it spans.
    pub fn is_leaf(self) -> bool
        ensures { result ≡ is_leaf (node_of self) }
    {
        self.remaining == 0
    }

    pub fn span(self) -> u32
        requires { self.first.0 ≤ self.end.0 }
        ensures { result ≡ span_of (node_of self) }
    {
        self.end.0 - self.first.0
    }

    pub fn axis(self, k: usize) -> usize
        requires { 0 < k }
        ensures { result ≡ axis_of k (node_of self) }
    {
        self.level as usize % k
    }

    // Both children: the left one takes 2^(remaining - 1) leaves, or what there is.
    pub fn split(self) -> Halves
        requires { Splits (node_of self) }
        ensures near_value { node_of result.near ≡ near_child (node_of self) }
        ensures far_value { node_of result.far ≡ far_child (node_of self) }
    {
        let remaining = self.remaining - 1;
        let half = 1u32 << remaining;
        let stem = self.stem.0;
        let middle = self.end.0.min(self.first.0 + half);
        let level = self.level + 1;
        Halves {
            near: Cursor {
                stem: StemIdx(2 * stem),
                first: self.first,
                end: LeafIdx(middle),
                level,
                remaining,
            },
            far: Cursor {
                stem: StemIdx(2 * stem + 1),
                first: LeafIdx(middle),
                end: self.end,
                level,
                remaining,
            },
        }
    }
}
